// Racks of trays, tallies and holds, and runs of step lists over elements.
#![tactic(auto)]

mod guard;
pub mod hold;
pub mod rack;
pub mod run;
mod step;
pub mod tally;
