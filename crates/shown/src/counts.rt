// Counts of open places and digits.
use modulus::count::count;
use std::fmt;

// The greatest exponent that is tried with a prime: one more than any that is listed.
const EXPONENTS: u32 = 17;

// The counts of each listed exponent of a prime: open places, then digits.
#[derive(Clone, Copy)]
pub struct PrimeCounts(pub u32);

impl fmt::Display for PrimeCounts {
    fn fmt<W: fmt::Write>(&self, f: &mut fmt::Formatter<W>) -> fmt::Result {
        write!(f, "  {}:", self.0)?;
        for counts in (1..=EXPONENTS).filter_map(|e| count(self.0, e).ok()) {
            write!(f, " {}/{}", counts.mu, counts.digits)?;
        }
        writeln!(f, "")
    }
}
