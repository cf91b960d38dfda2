// How uses and answers are printed. The first two of each as in the crate `desk`, whose enums are others.
use crate::uses::{Answer, Use};
use element::rules::Open;
use element::show::LanesOf;
use std::fmt;

impl<E: Open> fmt::Display for Use<E> {
    fn fmt<W: fmt::Write>(&self, f: &mut fmt::Formatter<W>) -> fmt::Result {
        match self {
            Use::Offer { value } => write!(f, "offer {value}"),
            Use::Withdraw => write!(f, "withdraw"),
            Use::Plan { kind, start, count } => {
                write!(
                    f,
                    "plan, {kind}, {count} steps of the buffer from {start} on"
                )
            }
            Use::Run {
                p,
                e,
                start,
                count,
                input,
            } => write!(
                f,
                "run modulo {p}^{e} on {}, {count} steps of the buffer from {start} on",
                LanesOf(input)
            ),
        }
    }
}

impl<E: Open> fmt::Display for Answer<E> {
    fn fmt<W: fmt::Write>(&self, f: &mut fmt::Formatter<W>) -> fmt::Result {
        match self {
            Answer::Stands { accepted } => write!(f, "{accepted}"),
            Answer::Withdrawn { value } => write!(f, "{value} goes"),
            Answer::Written { price } => write!(f, "{price}"),
            Answer::Ran { element } => write!(f, "answers {}", LanesOf(element)),
        }
    }
}
