//! Lanes that were left with a tail, cut back to their committed bytes.
#![tactic(auto)]

mod sweep;

pub use sweep::sweep_one;
