// The step check: the first bad step of a list from anyone, and how many trays a list needs.
ghost use Rattle.std.specs.Prelude.{◌≡◌, ◌<◌, MatchOption};
ghost use Rattle.plan.specs.Marks.{good_by, marked};
ghost use Rattle.plan.specs.Steps.{FirstBad, greatest_of, Passes, trays_of};

use crate::step::{Op, Step};
use modulus::listed::Modulus;

// The most trays that steps can name.
pub const TRAYS: usize = 64;

// The most steps of a list; the step of this number is always bad.
pub const STEPS: usize = 160;

// Whether b and k are as the kind of step has them.
fn formed(modulus: &Modulus, readable: &[bool; TRAYS], s: Step) -> bool
    requires { s.b < 64 }
    ensures { result ≡ marked modulus.now.value readable.now s s.op }
{
    match s.op {
        Op::Add | Op::Multiply => readable[usize::from(s.b)] && s.k == 0,
        Op::Scale | Op::Shift => s.b == 0 && u32::from(s.k) < modulus.value(),
    }
}

// Whether the step names trays that there are and reads only what is marked as readable.
fn is_good(modulus: &Modulus, readable: &[bool; TRAYS], s: Step) -> bool
    ensures { result ≡ good_by modulus.now.value readable.now s }
{
    usize::from(s.to) < TRAYS
        && usize::from(s.a) < TRAYS
        && usize::from(s.b) < TRAYS
        && readable[usize::from(s.a)]
        && formed(modulus, readable, s)
}

// The first bad step of the list under the modulus, or none.
pub fn first_bad(modulus: &Modulus, steps: &[Step]) -> Option<usize>
    ensures { MatchOption result (Passes modulus.now.value steps.now) (λ i. FirstBad modulus.now.value steps.now i) }
{
    let mut readable = [false; TRAYS];
    readable[0] = true;
    for (i, s) in steps.iter().enumerate() {
        if i >= STEPS || !is_good(modulus, &readable, *s) {
            return Some(i);
        }
        readable[usize::from(s.to)] = true;
    }
    None
}

// The greatest tray number in the list; 0 without steps.
fn greatest(steps: &[Step]) -> u8
    ensures { result ≡ greatest_of steps.now }
{
    steps
        .iter()
        .fold(0, |found, s| found.max(s.to.max(s.a.max(s.b))))
}

// How many trays the list needs: one more than the greatest number in it, and at least 1.
pub fn trays(steps: &[Step]) -> usize
    ensures { result ≡ trays_of steps.now }
{
    usize::from(greatest(steps)) + 1
}
