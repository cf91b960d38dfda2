// A job read from its text.
ghost use Rattle.std.specs.Prelude.{◌≡◌, ℕ, ◌≤◌, [], length, codes, MatchOption, MatchResult};
ghost use Rattle.job.specs.Reading.{ListThen, NoListLine, NoValues, ValuesThen};
ghost use Rattle.job.specs.Text.{IsBadLine, Says};

use crate::numbers::{behind, number, number_line};
use crate::parsed::{BYTES, Job, VALUES};
use arrayvec::ArrayVec;
use modulus::refusal::Refusal;

// Reads joined numbers, one at least, with the end of their line, from the front of the text into the values; answers the rest.
// `read` lends the values: they are a list of 8 KiB, which each function that answers it by value makes anew. A `loop`: it goes over what is left of the text, for which there is no range.
fn joined_values<'a>(text: &'a [u8], values: &mut ArrayVec<u32, VALUES>) -> Option<&'a [u8]>
    requires short { length text.now ≤ 4096 }
    requires none { values.old.items ≡ [] }
    ensures { MatchOption result (NoValues text.now) (λ rest. ValuesThen text.now values.new.items rest.now) }
{
    let mut left = text;
    loop {
        let (value, rest) = number(left)?;
        values.push(value);
        match rest.split_first()? {
            (b'\n', rest) => return Some(rest),
            (b',', rest) => left = rest,
            _ => return None,
        }
    }
}

// Reads the line with the values from the front of the text; answers the rest.
fn values_line<'a>(text: &'a [u8], values: &mut ArrayVec<u32, VALUES>) -> Option<&'a [u8]>
    requires short { length text.now ≤ 4096 }
    requires none { values.old.items ≡ [] }
    ensures { MatchOption result (NoListLine text.now (codes "values=")) (λ rest. ListThen text.now (codes "values=") values.new.items rest.now) }
{
    let list = behind(text, b"values=")?;
    // A match: `or_else` would lend the values to a closure.
    match behind(list, b"\n") {
        Some(rest) => Some(rest),
        None => joined_values(list, values),
    }
}

// The job that the text says. The refusal names the first line that is not as laid out: 0 where there are too many bytes, and 4 where bytes follow the third line.
pub(crate) fn read(bytes: &[u8]) -> Result<Job, Refusal>
    ensures { MatchResult result (λ job. Says bytes.now job.prime job.exponent job.values.items) (λ refusal. (line : ℕ) × IsBadLine bytes.now line × (refusal ≡ Refusal.BadLine line)) }
{
    if bytes.len() > BYTES {
        return Err(Refusal::BadLine { line: 0 });
    }
    let (prime, text) = number_line(bytes, b"prime=").ok_or(Refusal::BadLine { line: 1 })?;
    let (exponent, text) = number_line(text, b"exponent=").ok_or(Refusal::BadLine { line: 2 })?;
    let mut values = ArrayVec::new();
    let text = values_line(text, &mut values).ok_or(Refusal::BadLine { line: 3 })?;
    if !text.is_empty() {
        return Err(Refusal::BadLine { line: 4 });
    }
    Ok(Job {
        prime,
        exponent,
        values,
    })
}
