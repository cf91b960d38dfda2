// A job that was read.

use arrayvec::ArrayVec;

// The most bytes of a job's text.
pub(crate) const BYTES: usize = 4096;

// The most values of a job: each takes a digit and a comma or the end of the line, and the text has at most 4,096 bytes.
pub(crate) const VALUES: usize = 2048;

// The prime, the exponent and the values.
#[derive(Drop)]
pub(crate) struct Job {
    pub(crate) prime: u32,
    pub(crate) exponent: u32,
    pub(crate) values: ArrayVec<u32, VALUES>,
}
