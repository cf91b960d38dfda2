// How the answer to an offer is printed.
use crate::table::offer::Accepted;
use std::fmt;

impl fmt::Display for Accepted {
    fn fmt<W: fmt::Write>(&self, f: &mut fmt::Formatter<W>) -> fmt::Result {
        write!(f, "place {}, coefficient {}", self.place, self.coefficient)
    }
}
