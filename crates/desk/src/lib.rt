// The desk: a list of uses carried out on a freshly opened fit, and the law over every such list.
#![tactic(auto)]

pub mod carry;
mod show;
pub mod uses;
