// Uses carried out one after the other. The clauses `tally` and `lender` speak of two states, which no field can hold.
ghost use Rattle.std.specs.Prelude.{◌≡◌, ◌+◌, ◌-◌, ◌≤◌, List, [], length, min, vec_capacity, MatchResult};
ghost use Rattle.full_desk.specs.Book.{begins, part, room, written};
ghost use Rattle.full_desk.specs.Desk.{Booked, CarriedOut, Performed};
ghost use Rattle.full_desk.specs.Kinds.{asked_of, askings, told_of, tellings};
ghost use Rattle.full_desk.specs.Law.{Decided, LeadsBack};
ghost use Rattle.desk.specs.Stops.{Stops};
ghost use Rattle.fit.specs.Standing.{stands};
ghost use Rattle.plan.specs.declared.step.Step.{Step as StepOf};
ghost use Rattle.planner.specs.Plans.{Issued, NoPlan, Priced};
ghost use Rattle.rack.specs.Runs.{NoRun, Runs, meaning_of, meanings};

use crate::uses::{Answer, Use};
pub use desk::carry::Stopped;
use element::rules::Element;
use fit::table::Fit;
use modulus::refusal::Refusal;
use plan::cost::Price;
use plan::step::Step;
use planner::issue::plan;
use planner::kind::Kind;
use rack::rack::Rack;
use rack::run::run;
use rack::tally::Tally;
use std::alloc::Global;
use std::ops::Range;

// The places of a part of a buffer of this length, as far as the buffer goes. A start and a count, here and below, as a use names them; a range could end before it begins.
fn part_of(length: usize, start: usize, count: usize) -> Range<usize>
    ensures start { result.start ≡ min start length }
    ensures end { result.end ≡ result.start + min count (length - result.start) }
{
    let from = start.min(length);
    from..from + count.min(length - from)
}

// Writes a plan for what stands in the fit into a part of the buffer. The modulus and the values stand one by one: the rules of plans know no fit.
fn plan_part(
    fit: &Fit,
    steps: &mut [Step],
    kind: Kind,
    start: usize,
    count: usize,
) -> Result<Price, Refusal>
    ensures { MatchResult result (λ price. (made : List StepOf) × Issued fit.now.modulus.prime fit.now.modulus.exponent (stands fit.now) kind made × Priced made price × (length made ≤ room steps.old start count) × (steps.new ≡ written steps.old (begins steps.old start) made)) (λ f. NoPlan fit.now.modulus.prime fit.now.modulus.exponent (stands fit.now) (room steps.old start count) kind f × (steps.new ≡ steps.old)) }
{
    let part = part_of(steps.len(), start, count);
    plan(fit, kind, &mut steps[part])
}

// Runs a part of the buffer. The clauses are those of `run`, of that part.
fn run_part<E: Element>(
    steps: &[Step],
    p: u32,
    e: u32,
    start: usize,
    count: usize,
    input: E,
    rack: &mut Rack<'_, E>,
    tally: &mut Tally,
) -> Result<E, Refusal>
    ensures tally { tally.new.out ≡ tally.old.out }
    ensures lender { rack.new.trays.ghost_name ≡ rack.old.trays.ghost_name }
    ensures cases { MatchResult result (λ x. Runs p e (part steps.now start count) tally.old.out (meanings E.Element.lanes E.Element.level rack.old.trays.now) (meaning_of E.Element.lanes E.Element.level input) (meaning_of E.Element.lanes E.Element.level x) (meanings E.Element.lanes E.Element.level rack.new.trays.now)) (λ f. NoRun p e (part steps.now start count) tally.old.out (meanings E.Element.lanes E.Element.level rack.old.trays.now) (meaning_of E.Element.lanes E.Element.level input) f (meanings E.Element.lanes E.Element.level rack.new.trays.now)) }
{
    let part = part_of(steps.len(), start, count);
    run(p, e, &steps[part], input, rack, tally)
}

// Carries out one use, as in the crate `desk`, with the buffer, the rack and the tally beside the fit.
// The fit, the buffer, the rack and the tally stay four parameters: with a struct of the four loans the borrow check does not cover `perform` (four forms were tried), and each contract would have to say of each loan that its lender stays.
fn perform<E: Element>(
    fit: &mut Fit,
    steps: &mut [Step],
    rack: &mut Rack<'_, E>,
    tally: &mut Tally,
    asked: Use<E>,
) -> Result<Answer<E>, Refusal>
    ensures tally { tally.new.out ≡ tally.old.out }
    ensures lender { rack.new.trays.ghost_name ≡ rack.old.trays.ghost_name }
    ensures due { Performed tally.old.out fit.old steps.old (meanings E.Element.lanes E.Element.level rack.old.trays.now) (asked_of E.Element.lanes E.Element.level asked) (told_of E.Element.lanes E.Element.level result) fit.new steps.new (meanings E.Element.lanes E.Element.level rack.new.trays.now) }
{
    match asked {
        Use::Offer { value } => Ok(Answer::Stands {
            accepted: fit.offer(value)?,
        }),
        Use::Withdraw => Ok(Answer::Withdrawn {
            value: fit.withdraw()?,
        }),
        Use::Plan { kind, start, count } => Ok(Answer::Written {
            price: plan_part(fit, steps, kind, start, count)?,
        }),
        Use::Run {
            p,
            e,
            start,
            count,
            input,
        } => Ok(Answer::Ran {
            element: run_part(steps, p, e, start, count, input, rack, tally)?,
        }),
    }
}

// Carries out the uses in their order, refused ones included, and notes each answer. As in the crate `desk`, for the reason given at `perform`.
fn carry_on<E: Element>(
    fit: &mut Fit,
    steps: &mut [Step],
    rack: &mut Rack<'_, E>,
    tally: &mut Tally,
    uses: &[Use<E>],
    answers: &mut Vec<Result<Answer<E>, Refusal>>,
)
    requires none { answers.old.items ≡ [] }
    requires room { length uses.now ≤ vec_capacity answers.old }
    ensures tally { tally.new.out ≡ tally.old.out }
    ensures lender { rack.new.trays.ghost_name ≡ rack.old.trays.ghost_name }
    ensures book { Booked tally.old.out fit.old steps.old (meanings E.Element.lanes E.Element.level rack.old.trays.now) (askings E.Element.lanes E.Element.level uses.now) (tellings E.Element.lanes E.Element.level answers.new.items) fit.new steps.new (meanings E.Element.lanes E.Element.level rack.new.trays.now) }
{
    for asked in uses {
        answers.push_reserved(perform(fit, steps, rack, tally, *asked));
    }
}

// Opens the fit with the modulus p ^ e and carries out the uses in their order, refused ones included; answers each. Plans are written into parts of the step buffer; runs take parts of it, and trays of the rack above the tally's count.
// Where the modulus is off the list, or there is no memory for the answers, the fit, the buffer and the rack are left as they are. The tally is always left as it was.
pub fn carry_out<E: Element>(
    heap: Global,
    fit: &mut Fit,
    p: u32,
    e: u32,
    steps: &mut [Step],
    rack: &mut Rack<'_, E>,
    tally: &mut Tally,
    uses: &[Use<E>],
) -> Result<Vec<Result<Answer<E>, Refusal>>, Stopped>
    ensures law { MatchResult result (λ answers. CarriedOut p e tally.old.out steps.old (meanings E.Element.lanes E.Element.level rack.old.trays.now) (askings E.Element.lanes E.Element.level uses.now) (tellings E.Element.lanes E.Element.level answers.items) fit.new steps.new (meanings E.Element.lanes E.Element.level rack.new.trays.now)) (λ stop. Stops p e stop × (fit.new ≡ fit.old) × (steps.new ≡ steps.old) × (rack.new.trays.now ≡ rack.old.trays.now)) }
    ensures tally { tally.new.out ≡ tally.old.out }
    ensures lender { rack.new.trays.ghost_name ≡ rack.old.trays.ghost_name }
    ensures decided { Decided }
    ensures leads_back { LeadsBack }
{
    let mut answers = Vec::with_capacity(heap, uses.len())?;
    fit.open(p, e)?;
    carry_on(fit, steps, rack, tally, uses, &mut answers);
    Ok(answers)
}
