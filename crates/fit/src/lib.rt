// The fit: a table of values, judged value by value, with the reduced polynomial that takes them.
#![tactic(auto)]

mod show;
pub mod table;
