// What the values of a job come to.
ghost use Rattle.std.specs.Prelude.{◌≡◌, ℕ, List, length};
ghost use Rattle.std.specs.Result.{result_err};
ghost use Rattle.fit.specs.Standing.{power_of, stands};
ghost use Rattle.job.specs.Forms.{page_text};
ghost use Rattle.job.specs.Report.{FiguresOf, Judged, Reports};
ghost use Rattle.job.specs.Text.{Says};
ghost use Rattle.plan.specs.Steps.{multiplications_of};
ghost use Rattle.plan.specs.declared.step.Step.{Step as StepOf};
ghost use Rattle.planner.specs.Plans.{Planned};

use crate::page::Figures;
use crate::parsed::Job;
use arrayvec::ArrayVec;
use fit::table::Fit;
use modulus::listed::PLACES;
use modulus::refusal::Refusal;
use plan::check::STEPS;
use plan::step::Step;
use planner::issue::plan;
use planner::kind::Kind;

// Offers the values in their order until one is refused, and refuses as that one does.
// The loop has the index of each value, as was asked for this place: its one caller offers to an empty fit, whose places they are (docs/DECISIONS.md, 39).
fn offer_all(fit: &mut Fit, values: &[u32]) -> Result<(), Refusal>
    ensures modulus { fit.new.modulus ≡ fit.old.modulus }
    ensures judged { Judged (power_of fit.old.modulus) (stands fit.old) values.now (stands fit.new) (result_err result) }
{
    for (_i, value) in values.iter().enumerate() {
        fit.offer(*value)?;
    }
    Ok(())
}

// The multiplications of the ladder for what stands in the fit. No ladder has more steps than the buffer.
// The modulus and the values stand one by one in the contracts: the rules of plans and reports know no fit.
fn ladder_multiplications(fit: &Fit) -> usize
    ensures { (ladder : List StepOf) × Planned fit.now.modulus.prime fit.now.modulus.exponent (stands fit.now) Kind.Ladder ladder × (result ≡ multiplications_of ladder) }
{
    let mut steps = [Step::default(); STEPS];
    let price = plan(fit, Kind::Ladder, &mut steps).unwrap();
    price.multiplications as usize
}

// The figures of what stands in the fit. No form has more coefficients than a report has room for.
// The two lists are written alike; one function for both would take the call as a closure, and its clauses on what that writes are longer than this.
fn figures(fit: &Fit, refusal: Option<Refusal>) -> Figures
    ensures standing { result.standing ≡ length (stands fit.now) }
    ensures refusal { result.refusal ≡ refusal }
    ensures figures { FiguresOf fit.now.modulus.prime fit.now.modulus.exponent (stands fit.now) result.reduced.items result.powers.items result.multiplications }
{
    let mut reduced = ArrayVec::from([0; PLACES]);
    let count = fit.report(&mut reduced).unwrap();
    reduced.truncate(count);
    let mut powers = ArrayVec::from([0; PLACES]);
    let count = fit.powers(&mut powers).unwrap();
    powers.truncate(count);
    Figures {
        standing: fit.count() as usize,
        reduced,
        powers,
        multiplications: ladder_multiplications(fit),
        refusal,
    }
}

// The figures of the job, or the refusal of its modulus.
pub(crate) fn figures_of_job(job: &Job) -> Result<Figures, Refusal>
    ensures { (bytes : List ℕ) → Says bytes job.now.prime job.now.exponent job.now.values.items → Reports bytes (page_text result) }
{
    let mut fit = Fit::new();
    fit.open(job.prime, job.exponent)?;
    let refusal = offer_all(&mut fit, &job.values).err();
    Ok(figures(&fit, refusal))
}
