// What the programs print alike: each type is shown as the lines, or the part of a line, that stand for it. Lines are ended, the last one too.
#![tactic(auto)]

pub mod counts;
pub mod lists;
pub mod polynomials;
pub mod sections;
pub mod steps;
pub mod tables;
