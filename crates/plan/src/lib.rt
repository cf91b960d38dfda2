// Step lists: steps on numbered trays, their check and their cost.
#![tactic(auto)]

pub mod check;
pub mod cost;
mod show;
pub mod step;
