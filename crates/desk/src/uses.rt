// What can be asked at a desk, and what is answered.
use fit::table::offer::Accepted;

// One use of the desk. There are no other uses, so a `match` picks the call: a list of uses is data, which closures are not.
#[derive(Clone, Copy, Debug)]
pub enum Use {
    // Offer a value for the next place.
    Offer { value: u32 },
    // Take the last standing value away.
    Withdraw,
}

// What a use that is not refused answers.
#[derive(Clone, Copy, Debug)]
pub enum Answer {
    // The place and the new coefficient of an accepted offer.
    Stands { accepted: Accepted },
    // The value that was withdrawn.
    Withdrawn { value: u16 },
}
