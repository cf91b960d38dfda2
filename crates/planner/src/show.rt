// How the kind of a plan is printed.
use crate::kind::Kind;
use std::fmt;

impl fmt::Display for Kind {
    fn fmt<W: fmt::Write>(&self, f: &mut fmt::Formatter<W>) -> fmt::Result {
        match self {
            Kind::Ladder => write!(f, "ladder"),
            Kind::Block { size } => write!(f, "block of {size}"),
        }
    }
}
