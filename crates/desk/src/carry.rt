// Uses carried out one after the other.
ghost use Rattle.std.specs.Prelude.{◌≡◌, ◌≤◌, [], length, vec_capacity, MatchResult};
ghost use Rattle.desk.specs.Book.{Book, Due};
ghost use Rattle.desk.specs.Desk.{CarriedOut, sheet_of};
ghost use Rattle.desk.specs.Law.{Decided, LeadsBack};
ghost use Rattle.desk.specs.Stops.{Stops};
ghost use Rattle.desk.specs.declared.carry.Stopped.TheVariants.{NoMemory, Refused};

use crate::uses::{Answer, Use};
use fit::table::Fit;
use modulus::refusal::Refusal;
use std::alloc::{AllocError, Global};

// Why a list of uses was not begun.
#[derive(Clone, Copy, Debug)]
pub enum Stopped {
    // The fit could not be opened.
    Refused { refusal: Refusal },
    // There was no memory for the answers.
    NoMemory,
}

// By hand, since the clause of `carry_out` has to know what `?` makes of an error.
impl From<AllocError> for Stopped {
    ghost from_gives = { λ _ r. r ≡ NoMemory };

    fn from(_error: AllocError) -> Stopped {
        Stopped::NoMemory
    }
}

// By hand, for the same reason.
impl From<Refusal> for Stopped {
    ghost from_gives = { λ f r. r ≡ Refused f };

    fn from(refusal: Refusal) -> Stopped {
        Stopped::Refused { refusal }
    }
}

// Carries out one use.
fn perform(fit: &mut Fit, asked: Use) -> Result<Answer, Refusal>
    ensures { Due (sheet_of fit.old) asked result (sheet_of fit.new) }
{
    match asked {
        Use::Offer { value } => Ok(Answer::Stands {
            accepted: fit.offer(value)?,
        }),
        Use::Withdraw => Ok(Answer::Withdrawn {
            value: fit.withdraw()?,
        }),
    }
}

// Carries out the uses in their order, refused ones included, and notes each answer.
fn carry_on(fit: &mut Fit, uses: &[Use], answers: &mut Vec<Result<Answer, Refusal>>)
    requires none { answers.old.items ≡ [] }
    requires room { length uses.now ≤ vec_capacity answers.old }
    ensures { Book (sheet_of fit.old) uses.now answers.new.items (sheet_of fit.new) }
{
    for asked in uses {
        answers.push_reserved(perform(fit, *asked));
    }
}

// Opens the fit with the modulus p ^ e and carries out the uses in their order, refused ones included; answers each.
// Where the modulus is off the list, or there is no memory for the answers, the fit is left as it is.
pub fn carry_out(
    heap: Global,
    fit: &mut Fit,
    p: u32,
    e: u32,
    uses: &[Use],
) -> Result<Vec<Result<Answer, Refusal>>, Stopped>
    ensures law { MatchResult result (λ answers. CarriedOut p e uses.now answers.items fit.new) (λ stop. Stops p e stop × (fit.new ≡ fit.old)) }
    ensures decided { Decided }
    ensures leads_back { LeadsBack }
{
    let mut answers = Vec::with_capacity(heap, uses.len())?;
    fit.open(p, e)?;
    carry_on(fit, uses, &mut answers);
    Ok(answers)
}
