// Numbers and keys read from the front of a text. Each reader answers what it read and the rest of the text.
ghost use Rattle.std.specs.Prelude.{◌≡◌, ℕ, ◌≤◌, List, ◌++◌, length, MatchOption, ◌≢◌};
ghost use Rattle.std.specs.Str.Parse.{AllDigits, digits_value as written};
ghost use Rattle.job.specs.Reading.{Ends, LineThen, NoLine, NoNumber, NumberThen};

// What a reader found at the front of a text, and the rest of the text.
pub(crate) type Found<'a, T> = Option<(T, &'a [u8])>;

// The most digits of a number.
const DIGITS: usize = 5;

// The decimal digits at the front of the text, and the rest.
fn split_digits(text: &[u8]) -> (&[u8], &[u8])
    ensures text { text.now ≡ result.0.now ++ result.1.now }
    ensures digits { AllDigits 10 result.0.now }
    ensures ends { Ends result.1.now }
{
    let end = text.iter().position(|byte| !byte.is_ascii_digit());
    text.split_at(end.unwrap_or(text.len()))
}

// The number that a few digits write. A loop over the bytes, and no `from_utf8` with `parse`: these go over each number again, and reading a job took twice as long.
fn value_of(digits: &[u8]) -> u32
    requires few { length digits.now ≤ 5 }
    requires all { AllDigits 10 digits.now }
    ensures { result ≡ written 10 digits.now }
{
    let mut value = 0;
    for digit in digits {
        value = value * 10 + u32::from(*digit - b'0');
    }
    value
}

// The number at the front of the text: 0, or 1 to 5 digits of which the first is not 0. None where there is none, or where more digits follow.
pub(crate) fn number(text: &[u8]) -> Found<'_, u32>
    ensures { MatchOption result (NoNumber text.now) (λ r. NumberThen text.now r.0 r.1.now) }
{
    let (digits, rest) = split_digits(text);
    if digits.is_empty() {
        return None;
    }
    if digits.len() > DIGITS {
        return None;
    }
    if digits.len() > 1 && digits[0] == b'0' {
        return None;
    }
    Some((value_of(digits), rest))
}

// What stands behind these bytes at the front of the text: what `strip_prefix` answers, said by equations.
pub(crate) fn behind<'a>(text: &'a [u8], front: &[u8]) -> Option<&'a [u8]>
    ensures { MatchOption result ((rest : List ℕ) → text.now ≢ front.now ++ rest) (λ rest. text.now ≡ front.now ++ rest.now) }
{
    text.strip_prefix(front)
}

// The line with this key and a number at the front of the text.
pub(crate) fn number_line<'a>(text: &'a [u8], key: &[u8]) -> Found<'a, u32>
    ensures { MatchOption result (NoLine text.now key.now) (λ r. LineThen text.now key.now r.0 r.1.now) }
{
    let (value, rest) = number(behind(text, key)?)?;
    Some((value, behind(rest, b"\n")?))
}
