// Lists of numbers, and answers that may be refused.
use modulus::refusal::Refusal;
use std::fmt;

// Numbers with commas between them.
#[derive(Drop)]
pub struct Numbers<'a, T>(pub &'a [T]);

impl<T: fmt::Display> fmt::Display for Numbers<'_, T> {
    fn fmt<W: fmt::Write>(&self, f: &mut fmt::Formatter<W>) -> fmt::Result {
        for (i, number) in self.0.iter().enumerate() {
            if i > 0 {
                write!(f, ",")?;
            }
            write!(f, "{number}")?;
        }
        Ok(())
    }
}

// What was answered, or the refusal.
#[derive(Drop)]
pub struct Outcome<'a, T>(pub &'a Result<T, Refusal>);

impl<T: fmt::Display> fmt::Display for Outcome<'_, T> {
    fn fmt<W: fmt::Write>(&self, f: &mut fmt::Formatter<W>) -> fmt::Result {
        match self.0 {
            Ok(answer) => write!(f, "{answer}"),
            Err(refusal) => write!(f, "{refusal}"),
        }
    }
}

// A line for each use of a desk: what was asked, and what was answered. Two lists: a desk answers apart from the uses, in their order.
#[derive(Drop)]
pub struct Uses<'a, U, A> {
    pub uses: &'a [U],
    pub answers: &'a [Result<A, Refusal>],
}

impl<U: fmt::Display, A: fmt::Display> fmt::Display for Uses<'_, U, A> {
    fn fmt<W: fmt::Write>(&self, f: &mut fmt::Formatter<W>) -> fmt::Result {
        for (asked, answer) in self.uses.iter().zip(self.answers.iter()) {
            writeln!(f, "  {asked}: {}", Outcome(answer))?;
        }
        Ok(())
    }
}
