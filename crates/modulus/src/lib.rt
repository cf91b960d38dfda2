// The moduli that the engine takes, their bounds, and the refusals.
#![tactic(auto)]

pub mod count;
pub mod listed;
pub mod refusal;
mod show;
pub mod units;
