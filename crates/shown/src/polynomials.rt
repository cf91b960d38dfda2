// Reported polynomials, comparisons of polynomials, and null polynomials.
use crate::lists::{Numbers, Outcome};
use fit::table::Fit;
use modulus::listed::PLACES;
use poly::alike::alike;
use poly::null::null;
use poly::reduce::reduce;
use poly::shift::COEFFICIENTS;
use std::fmt;

// How many values stand in a fit, the report on them, and the same polynomial in powers of X.
#[derive(Drop)]
pub struct Report<'a>(pub &'a Fit);

impl fmt::Display for Report<'_> {
    fn fmt<W: fmt::Write>(&self, f: &mut fmt::Formatter<W>) -> fmt::Result {
        let fit = self.0;
        let mut buffer = [0; PLACES];
        let report = fit.report(&mut buffer).map(|n| Numbers(&buffer[..n]));
        writeln!(f, "  standing {}, report {}", fit.count(), Outcome(&report))?;
        let powers = fit.powers(&mut buffer).map(|n| Numbers(&buffer[..n]));
        writeln!(f, "  powers {}", Outcome(&powers))
    }
}

// A list of coefficients in powers of X modulo p ^ e, shown by its reduced form.
#[derive(Drop)]
struct Reduced<'a> {
    p: u32,
    e: u32,
    list: &'a [u32],
}

impl fmt::Display for Reduced<'_> {
    fn fmt<W: fmt::Write>(&self, f: &mut fmt::Formatter<W>) -> fmt::Result {
        let mut buffer = [0; PLACES];
        let reduced = reduce(self.p, self.e, self.list, &mut buffer).map(|n| Numbers(&buffer[..n]));
        writeln!(f, "  reduced {}", Outcome(&reduced))
    }
}

// Two lists of coefficients in powers of X modulo p ^ e: whether they are one function, and the reduced form of each.
#[derive(Clone, Copy)]
pub struct Comparison<'a> {
    pub p: u32,
    pub e: u32,
    pub first: &'a [u32],
    pub second: &'a [u32],
}

impl fmt::Display for Comparison<'_> {
    fn fmt<W: fmt::Write>(&self, f: &mut fmt::Formatter<W>) -> fmt::Result {
        let Comparison {
            p,
            e,
            first,
            second,
        } = *self;
        let told = alike(p, e, first, second).map(|same| if same { "alike" } else { "not alike" });
        writeln!(
            f,
            "modulo {p}^{e}, {} and {}: {}",
            Numbers(first),
            Numbers(second),
            Outcome(&told)
        )?;
        for list in [first, second] {
            write!(f, "{}", Reduced { p, e, list })?;
        }
        Ok(())
    }
}

// The null polynomials of the first places modulo p ^ e, in powers of X.
#[derive(Clone, Copy)]
pub struct NullPolynomials {
    pub p: u32,
    pub e: u32,
    pub places: usize,
}

impl fmt::Display for NullPolynomials {
    fn fmt<W: fmt::Write>(&self, f: &mut fmt::Formatter<W>) -> fmt::Result {
        let NullPolynomials { p, e, places } = *self;
        writeln!(f, "modulo {p}^{e}, null polynomials")?;
        for i in 1..=places {
            let mut buffer = [0; COEFFICIENTS];
            let written = null(p, e, i, &mut buffer).map(|n| Numbers(&buffer[..n]));
            writeln!(f, "  place {i}: {}", Outcome(&written))?;
        }
        Ok(())
    }
}
