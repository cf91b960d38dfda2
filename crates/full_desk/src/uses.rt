// What can be asked at a desk, and what is answered.
use fit::table::offer::Accepted;
use plan::cost::Price;
use planner::kind::Kind;

// One use of the desk, with elements of one kind. There are no other uses, so a `match` picks the call: a list of uses is data, which closures are not.
// The first two are those of the crate `desk`; they stand here too, since each desk's callers write one enum, and both are public.
#[derive(Clone, Copy)]
pub enum Use<E> {
    // Offer a value for the next place.
    Offer {
        value: u32,
    },
    // Take the last standing value away.
    Withdraw,
    // Write a plan for what stands into a part of the step buffer: at most `count` steps from `start` on, as far as the buffer goes.
    Plan {
        kind: Kind,
        start: usize,
        count: usize,
    },
    // Run a part of the step buffer on the input under the modulus p ^ e.
    Run {
        p: u32,
        e: u32,
        start: usize,
        count: usize,
        input: E,
    },
}

// What a use that is not refused answers. The first two are those of the crate `desk`, for the same reason.
#[derive(Clone, Copy)]
pub enum Answer<E> {
    // The place and the new coefficient of an accepted offer.
    Stands { accepted: Accepted },
    // The value that was withdrawn.
    Withdrawn { value: u16 },
    // What the plan costs that was written.
    Written { price: Price },
    // The element that a run answers.
    Ran { element: E },
}
