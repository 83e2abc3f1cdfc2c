//! Both ends of streams over one link.
#![tactic(auto)]

mod end;
mod hear;
mod lane;
mod laws;
mod run;
mod send;
mod turn;

pub use end::ExchangeEnd;
pub use hq_recv::Take;
pub use laws::exchanges_are_safe;
pub use run::exchange_into;
