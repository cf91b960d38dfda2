// Step lists.
use modulus::listed::Modulus;
use plan::check::{first_bad, trays};
use plan::cost::cost;
use plan::step::Step;
use std::fmt;

// A line for each step, with its number, behind the indent.
#[derive(Clone, Copy)]
pub struct Steps<'a> {
    pub indent: &'a str,
    pub steps: &'a [Step],
}

impl fmt::Display for Steps<'_> {
    fn fmt<W: fmt::Write>(&self, f: &mut fmt::Formatter<W>) -> fmt::Result {
        for (i, step) in self.steps.iter().enumerate() {
            writeln!(f, "{}{i}: {step}", self.indent)?;
        }
        Ok(())
    }
}

// A step list behind an indent: its steps, whether one is bad, how many trays they need and what they cost.
#[derive(Clone, Copy)]
pub struct Checked<'a> {
    pub indent: &'a str,
    pub modulus: &'a Modulus,
    pub steps: &'a [Step],
}

impl fmt::Display for Checked<'_> {
    fn fmt<W: fmt::Write>(&self, f: &mut fmt::Formatter<W>) -> fmt::Result {
        let Checked {
            indent,
            modulus,
            steps,
        } = *self;
        write!(f, "{}", Steps { indent, steps })?;
        match first_bad(modulus, steps) {
            Some(i) => writeln!(f, "  step {i} is bad")?,
            None => writeln!(f, "  no step is bad")?,
        }
        match cost(steps) {
            Ok(price) => writeln!(
                f,
                "  trays {}, multiplications {}, depth {}",
                trays(steps),
                price.multiplications,
                price.depth
            ),
            Err(refusal) => writeln!(f, "{refusal}"),
        }
    }
}
