// Plans written for what stands in a fit.
ghost use Rattle.std.specs.Prelude.{◌≡◌, ℕ, ◌≤◌, length, take, drop, MatchResult};
ghost use Rattle.fit.specs.Standing.{stands};
ghost use Rattle.planner.specs.Plans.{Issued, NoPlan, Priced};
ghost use Rattle.poly.specs.Polynomial.{form as form_of};
ghost use Rattle.poly.specs.Powers.{Holds};
ghost use Rattle.poly.specs.Reduced.{form_length};

use crate::block::Size;
use crate::draft::Draft;
use crate::kind::Kind;
use crate::ladder::ladder;
use fit::table::Fit;
use modulus::listed::Modulus;
use modulus::refusal::{Refusal, check_room};
use plan::cost::{Price, cost};
use plan::step::Step;
use poly::powers::powers;
use poly::shift::COEFFICIENTS;

// The most coefficients of a block.
pub const LARGEST_BLOCK: usize = 8;

// A Newton form without the zeros at its end.
fn trimmed(coefficients: &[u16]) -> &[u16]
    ensures { result.now ≡ take (form_length coefficients.now) coefficients.now }
{
    let used = coefficients
        .iter()
        .rposition(|c| *c != 0)
        .map_or(0, |last| last + 1);
    &coefficients[..used]
}

// A Newton form in powers of X. Not `Fit::powers`, which goes by how many values stand: this takes the form without the zeros at its end, and costs as much as that is long.
fn in_powers(modulus: &Modulus, form: &[u16]) -> [u16; COEFFICIENTS]
    requires { length form.now ≤ 64 }
    ensures { Holds modulus.now.value (form_of form.now) (length form.now) result }
{
    let mut list = [0; COEFFICIENTS];
    powers(modulus, form, &mut list).unwrap();
    list
}

// The ladder for what stands in the fit.
// The modulus and the values stand one by one in this contract and the next three: the rules of plans know no fit.
fn ladder_for(fit: &Fit) -> Draft
    ensures { Issued fit.now.modulus.prime fit.now.modulus.exponent (stands fit.now) Kind.Ladder result.items }
{
    ladder(&fit.modulus(), trimmed(&fit.form()))
}

// The block plan of this size for what stands in the fit.
fn block_for(fit: &Fit, size: Size) -> Draft
    ensures { Issued fit.now.modulus.prime fit.now.modulus.exponent (stands fit.now) (Kind.Block size.value) result.items }
{
    let coefficients = fit.form();
    let form = trimmed(&coefficients);
    size.block(&in_powers(&fit.modulus(), form), form.len())
}

// The plan of this kind for what stands in the fit; refuses a block whose size is not 1 to 8, before it looks at the form.
fn lay_out(fit: &Fit, kind: Kind) -> Result<Draft, Refusal>
    ensures { MatchResult result (λ draft. Issued fit.now.modulus.prime fit.now.modulus.exponent (stands fit.now) kind draft.items) (λ f. (room : ℕ) → NoPlan fit.now.modulus.prime fit.now.modulus.exponent (stands fit.now) room kind f) }
{
    match kind {
        Kind::Ladder => Ok(ladder_for(fit)),
        Kind::Block { size } => Ok(block_for(fit, Size::new(size)?)),
    }
}

// Writes the plan of this kind for what stands in the fit to the front of the buffer, and answers its number of steps, how many multiply, and its depth;
// what lies past the plan stays. Refuses a block whose size is not 1 to 8, then a buffer that is too short, and leaves the buffer as it is.
#[tactic(auto, using(crate::proofs::Plans::issued_as, crate::proofs::Plans::priced_as, crate::proofs::Plans::short))]
pub fn plan(fit: &Fit, kind: Kind, out: &mut [Step]) -> Result<Price, Refusal>
    ensures { MatchResult result (λ price. Issued fit.now.modulus.prime fit.now.modulus.exponent (stands fit.now) kind (take price.steps out.new) × Priced (take price.steps out.new) price × (price.steps ≤ length out.old) × (drop price.steps out.new ≡ drop price.steps out.old)) (λ f. NoPlan fit.now.modulus.prime fit.now.modulus.exponent (stands fit.now) (length out.old) kind f × (out.new ≡ out.old)) }
{
    let draft = lay_out(fit, kind)?;
    check_room(out.len(), draft.len())?;
    let price = cost(&draft)?;
    out[..draft.len()].copy_from_slice(&draft);
    Ok(price)
}
