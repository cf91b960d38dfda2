// How uses, answers and stops are printed.
use crate::carry::Stopped;
use crate::uses::{Answer, Use};
use std::error::Error;
use std::fmt;

impl fmt::Display for Use {
    fn fmt<W: fmt::Write>(&self, f: &mut fmt::Formatter<W>) -> fmt::Result {
        match self {
            Use::Offer { value } => write!(f, "offer {value}"),
            Use::Withdraw => write!(f, "withdraw"),
        }
    }
}

impl fmt::Display for Answer {
    fn fmt<W: fmt::Write>(&self, f: &mut fmt::Formatter<W>) -> fmt::Result {
        match self {
            Answer::Stands { accepted } => write!(f, "{accepted}"),
            Answer::Withdrawn { value } => write!(f, "{value} goes"),
        }
    }
}

impl fmt::Display for Stopped {
    fn fmt<W: fmt::Write>(&self, f: &mut fmt::Formatter<W>) -> fmt::Result {
        match self {
            Stopped::Refused { refusal } => write!(f, "{refusal}"),
            Stopped::NoMemory => write!(f, "no memory for the answers"),
        }
    }
}

impl Error for Stopped {}
