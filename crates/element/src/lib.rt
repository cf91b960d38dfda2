// Elements: what plans run over, behind one interface.
#![tactic(auto)]

pub mod arith;
pub mod bare;
pub mod lanes;
pub mod levelled;
pub mod rules;
pub mod show;
pub mod twin;
