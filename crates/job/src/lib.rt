// Jobs as text: a prime, an exponent and values in, a report out.
#![tactic(auto)]

pub mod call;
mod figures;
mod numbers;
mod page;
mod parsed;
mod piece;
mod read;
