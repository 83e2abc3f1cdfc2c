//! Plans in bytes.
#![tactic(auto)]

mod exprs;
mod fault;
mod fields;
mod laws;
mod lists;
mod op_rules;
mod ops;
mod parts;
mod plan;
mod put;
mod rules;
mod shape;
mod slice_part;

pub use fault::PlanFault;
pub use laws::plans_have_one_spelling;
pub use plan::decode_plan;
pub use put::encode_plan;
