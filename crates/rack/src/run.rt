// Runs. What they leave of the tally and of the rack is said at each function on the way: the clauses `tally`, `lender` and `stays` speak of two states, which no field can hold.
ghost use Rattle.std.specs.Prelude.{◌≡◌, ℕ, ◌^◌, List, IfErr, MatchResult, ◌≢◌};
ghost use Rattle.plan.specs.Steps.{FirstBad, Passes};
ghost use Rattle.modulus.specs.Moduli.{Listed};
ghost use Rattle.rack.specs.Lanes.{DueLanes, LaneByLane};
ghost use Rattle.rack.specs.Levels.{AnswerLevel, LevelRule};
ghost use Rattle.rack.specs.Runs.{Held, Meaning, NoRun, Runs, meaning_of, meanings};

use crate::rack::{Rack, run_on};
use crate::tally::Tally;
use element::rules::Element;
use modulus::listed::Modulus;
use modulus::refusal::Refusal;
use plan::check::{first_bad, trays};
use plan::step::Step;

// Refuses a list with a bad step. A match: `map_or` would put the refusal behind the answer, and is no plainer.
fn check_steps(modulus: &Modulus, steps: &[Step]) -> Result<(), Refusal>
    ensures { MatchResult result (λ _. Passes modulus.now.value steps.now) (λ f. (i : ℕ) × FirstBad modulus.now.value steps.now i × (f ≡ Refusal.BadStep i)) }
{
    match first_bad(modulus, steps) {
        Some(step) => Err(Refusal::BadStep { step }),
        None => Ok(()),
    }
}

// The modulus of a run whose steps are good under it.
fn checked(p: u32, e: u32, steps: &[Step]) -> Result<Modulus, Refusal>
    ensures { MatchResult result (λ m. Listed p e × (m.prime ≡ p) × (m.exponent ≡ e) × Passes (p ^ e) steps.now) (λ f. (out : ℕ) (trays : List Meaning) (input : Meaning) → NoRun p e steps.now out trays input f trays) }
{
    let modulus = Modulus::new(p, e)?;
    check_steps(&modulus, steps)?;
    Ok(modulus)
}

// Takes the trays that the steps need, and runs them there. They stay out: `run_held` puts the count back.
// The two are apart so that a way out without the guard fails at a fact of `run_held`, which has no proof file.
fn run_taken<E: Element>(
    modulus: &Modulus,
    steps: &[Step],
    input: E,
    rack: &mut Rack<'_, E>,
    tally: &mut Tally,
) -> Result<E, Refusal>
    ensures lender { rack.new.trays.ghost_name ≡ rack.old.trays.ghost_name }
    ensures cases { Held modulus.now.value steps.now tally.old.out (meanings E.Element.lanes E.Element.level rack.old.trays.now) (meaning_of E.Element.lanes E.Element.level input) result (meaning_of E.Element.lanes E.Element.level) (meanings E.Element.lanes E.Element.level rack.new.trays.now) }
    ensures stays { IfErr result (λ f. ((i : ℕ) → f ≢ Refusal.LevelUsed i) → rack.new.trays.now ≡ rack.old.trays.now) }
{
    let base = tally.out();
    tally.raise(trays(steps), rack.len())?;
    run_on(rack.trays, base, steps, input, modulus)
}

// The same under a guard, so that the trays are back on every way out.
fn run_held<E: Element>(
    modulus: &Modulus,
    steps: &[Step],
    input: E,
    rack: &mut Rack<'_, E>,
    tally: &mut Tally,
) -> Result<E, Refusal>
    ensures tally { tally.new.out ≡ tally.old.out }
    ensures lender { rack.new.trays.ghost_name ≡ rack.old.trays.ghost_name }
    ensures cases { Held modulus.now.value steps.now tally.old.out (meanings E.Element.lanes E.Element.level rack.old.trays.now) (meaning_of E.Element.lanes E.Element.level input) result (meaning_of E.Element.lanes E.Element.level) (meanings E.Element.lanes E.Element.level rack.new.trays.now) }
    ensures stays { IfErr result (λ f. ((i : ℕ) → f ≢ Refusal.LevelUsed i) → rack.new.trays.now ≡ rack.old.trays.now) }
{
    let guard = tally.guard();
    run_taken(modulus, steps, input, rack, &mut *guard.tally)
}

// The run, and the laws of runs. `run`, which calls it, has the same contract and no proof file, so that a wrong call fails at a fact of `run`.
fn run_all<E: Element>(
    p: u32,
    e: u32,
    steps: &[Step],
    input: E,
    rack: &mut Rack<'_, E>,
    tally: &mut Tally,
) -> Result<E, Refusal>
    ensures tally { tally.new.out ≡ tally.old.out }
    ensures lender { rack.new.trays.ghost_name ≡ rack.old.trays.ghost_name }
    ensures cases { MatchResult result (λ x. Runs p e steps.now tally.old.out (meanings E.Element.lanes E.Element.level rack.old.trays.now) (meaning_of E.Element.lanes E.Element.level input) (meaning_of E.Element.lanes E.Element.level x) (meanings E.Element.lanes E.Element.level rack.new.trays.now)) (λ f. NoRun p e steps.now tally.old.out (meanings E.Element.lanes E.Element.level rack.old.trays.now) (meaning_of E.Element.lanes E.Element.level input) f (meanings E.Element.lanes E.Element.level rack.new.trays.now)) }
    ensures stays { IfErr result (λ f. ((i : ℕ) → f ≢ Refusal.LevelUsed i) → rack.new.trays.now ≡ rack.old.trays.now) }
    ensures level_rule { LevelRule }
    ensures answer_level { AnswerLevel }
    ensures lane_by_lane { LaneByLane }
    ensures due_lanes { DueLanes }
{
    let modulus = checked(p, e, steps)?;
    run_held(&modulus, steps, input, rack, tally)
}

// Runs the steps on the input: copies it to the first tray above the tally's count, does the steps there, and answers the tray that is written last, or the input without steps.
// Refuses a modulus off the list, then the first bad step, then a rack with too few free trays, then the first multiplication that no level is left for.
// The tally is left as it was; all but the last leave the trays as they were.
// p and e are two numbers, since a modulus off the list is refused here; the tally is a record beside the rack, since holds and runs share it.
pub fn run<E: Element>(
    p: u32,
    e: u32,
    steps: &[Step],
    input: E,
    rack: &mut Rack<'_, E>,
    tally: &mut Tally,
) -> Result<E, Refusal>
    ensures tally { tally.new.out ≡ tally.old.out }
    ensures lender { rack.new.trays.ghost_name ≡ rack.old.trays.ghost_name }
    ensures cases { MatchResult result (λ x. Runs p e steps.now tally.old.out (meanings E.Element.lanes E.Element.level rack.old.trays.now) (meaning_of E.Element.lanes E.Element.level input) (meaning_of E.Element.lanes E.Element.level x) (meanings E.Element.lanes E.Element.level rack.new.trays.now)) (λ f. NoRun p e steps.now tally.old.out (meanings E.Element.lanes E.Element.level rack.old.trays.now) (meaning_of E.Element.lanes E.Element.level input) f (meanings E.Element.lanes E.Element.level rack.new.trays.now)) }
    ensures stays { IfErr result (λ f. ((i : ℕ) → f ≢ Refusal.LevelUsed i) → rack.new.trays.now ≡ rack.old.trays.now) }
    ensures level_rule { LevelRule }
    ensures answer_level { AnswerLevel }
    ensures lane_by_lane { LaneByLane }
    ensures due_lanes { DueLanes }
{
    run_all(p, e, steps, input, rack, tally)
}
