// Whole sections of what a program prints, each with its heading.
use crate::counts::PrimeCounts;
use crate::lists::Outcome;
use crate::steps::Checked;
use crate::tables::{COMPARISONS, NULL_POLYNOMIALS, PRIMES, SQUARE};
use modulus::count::count;
use modulus::listed::Modulus;
use std::fmt;

// The listed comparisons and null polynomials.
#[derive(Clone, Copy)]
pub struct Polynomials;

impl fmt::Display for Polynomials {
    fn fmt<W: fmt::Write>(&self, f: &mut fmt::Formatter<W>) -> fmt::Result {
        writeln!(f, "Polynomials in powers of X that may be one function")?;
        for comparison in COMPARISONS {
            write!(f, "{comparison}")?;
        }
        for nulls in NULL_POLYNOMIALS {
            write!(f, "{nulls}")?;
        }
        Ok(())
    }
}

// The steps of a square under the modulus, behind an indent; then with a product that reads a tray that was never written.
#[derive(Clone, Copy)]
pub struct SquareLists<'a> {
    pub indent: &'a str,
    pub modulus: &'a Modulus,
}

impl fmt::Display for SquareLists<'_> {
    fn fmt<W: fmt::Write>(&self, f: &mut fmt::Formatter<W>) -> fmt::Result {
        let SquareLists { indent, modulus } = *self;
        writeln!(f, "Step lists")?;
        let mut steps = SQUARE;
        for (title, b) in [
            ("X + X(X - 1)", 2),
            ("the same with a tray that was never written", 3),
        ] {
            steps[4].b = b;
            let checked = Checked {
                indent,
                modulus,
                steps: &steps,
            };
            write!(
                f,
                "modulo {}^{}, {title}\n{checked}",
                modulus.prime(),
                modulus.exponent()
            )?;
        }
        Ok(())
    }
}

// The counts of one modulus in words, and those of every listed modulus.
#[derive(Clone, Copy)]
pub struct AllCounts;

impl fmt::Display for AllCounts {
    fn fmt<W: fmt::Write>(&self, f: &mut fmt::Formatter<W>) -> fmt::Result {
        writeln!(f, "Counts")?;
        writeln!(f, "  2^8: {}", Outcome(&count(2, 8)))?;
        writeln!(
            f,
            "Counts of every listed modulus: open places / digits for each exponent, from 1"
        )?;
        for prime in PRIMES {
            write!(f, "{}", PrimeCounts(prime))?;
        }
        Ok(())
    }
}
