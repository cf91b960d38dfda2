// Plans for a fit: the two layouts, and the call that writes one.
#![tactic(auto)]

mod block;
mod draft;
pub mod issue;
pub mod kind;
mod ladder;
mod show;
