// Racks.
ghost use Rattle.std.specs.Prelude.{◌≡◌, ℕ, ◌+◌, ◌<◌, ◌≤◌, length, take, MatchResult, slice_index_or};
ghost use Rattle.plan.specs.Steps.{greatest_of, trays_of};
ghost use Rattle.plan.specs.Trays.{last_from};
ghost use Rattle.rack.specs.Runs.{Ran, StopsAt, StuckAt, after_steps, meaning_of, meanings};

use crate::step::do_step;
use element::rules::Element;
use modulus::listed::Modulus;
use modulus::refusal::Refusal;
use plan::step::Step;

// A rack: the caller's buffer of elements of one kind. Its places are trays.
// Contracts name the lanes and the level of the element one by one, as the public clauses do.
#[derive(Drop)]
pub struct Rack<'a, E> {
    pub(crate) trays: &'a mut [E],
}

// Does the steps on the trays from a base on; refuses the first multiplication that no level is left for.
// The base stays a parameter beside the trays: a slice from the base on would hide the trays below, of which the contract says that they stay. The modulus is beside it since each step needs both.
fn do_steps<E: Element>(
    trays: &mut [E],
    base: usize,
    steps: &[Step],
    modulus: &Modulus,
) -> Result<(), Refusal>
    requires { base + trays_of steps.now ≤ length trays.old }
    ensures { let before = meanings E.Element.lanes E.Element.level trays.old in let after = meanings E.Element.lanes E.Element.level trays.new in MatchResult result (λ _. ((i : ℕ) → i < length steps.now → StuckAt modulus.now.value base before steps.now i → ⊥) × (after ≡ after_steps modulus.now.value base before steps.now)) (λ f. (i : ℕ) × (f ≡ Refusal.LevelUsed i) × (i < length steps.now) × ((j : ℕ) → j < i → StuckAt modulus.now.value base before steps.now j → ⊥) × StuckAt modulus.now.value base before steps.now i × (after ≡ after_steps modulus.now.value base before (take i steps.now))) }
{
    for (i, s) in steps.iter().enumerate() {
        do_step(trays, base, *s, modulus).map_err(|_| Refusal::LevelUsed { step: i })?;
    }
    Ok(())
}

impl<'a, E: Element> Rack<'a, E> {
    // A rack over the buffer.
    pub fn new(trays: &'a mut [E]) -> Rack<'a, E>
        ensures lender { result.trays.ghost_name ≡ trays.entry.ghost_name }
        ensures same { result.trays.now ≡ trays.old }
    {
        Rack { trays }
    }

    // How many trays the rack has.
    pub fn len(&self) -> usize
        ensures { result ≡ length self.now.trays.now }
    {
        self.trays.len()
    }
}

// The tray that is written last; without steps the first.
fn last_tray(steps: &[Step]) -> u8
    ensures is { result ≡ last_from 0 steps.now }
    ensures within { result ≤ greatest_of steps.now }
{
    steps.last().map_or(0, |s| s.to)
}

// What the tray with this number above the base has.
fn tray_at<E: Element>(trays: &[E], base: usize, tray: u8) -> E
    requires { base + tray < length trays.now }
    ensures { result ≡ slice_index_or trays.now (base + tray) result }
{
    trays[base + usize::from(tray)]
}

// Copies the input to the first tray above the base, does the steps, and answers the tray that is written last.
pub(crate) fn run_on<E: Element>(
    trays: &mut [E],
    base: usize,
    steps: &[Step],
    input: E,
    modulus: &Modulus,
) -> Result<E, Refusal>
    requires { base + trays_of steps.now ≤ length trays.old }
    ensures { let before = meanings E.Element.lanes E.Element.level trays.old in let after = meanings E.Element.lanes E.Element.level trays.new in let given = meaning_of E.Element.lanes E.Element.level input in MatchResult result (λ x. Ran modulus.now.value base before steps.now given (meaning_of E.Element.lanes E.Element.level x) after) (λ f. (i : ℕ) × (f ≡ Refusal.LevelUsed i) × StopsAt modulus.now.value base before steps.now given i after) }
{
    trays[base] = input;
    do_steps(trays, base, steps, modulus)?;
    Ok(tray_at(trays, base, last_tray(steps)))
}
