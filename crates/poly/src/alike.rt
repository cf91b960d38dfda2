// Two lists in powers of X that may be one function.
ghost use Rattle.std.specs.Prelude.{◌≡◌, ◌^◌, true, MatchResult};
ghost use Rattle.modulus.specs.Moduli.{Listed};
ghost use Rattle.poly.specs.Equivalents.{Alike, ToldApart, ints};
ghost use Rattle.poly.specs.Powers.{NoComparison, Taken};

use crate::reduce::Coefficients;
use modulus::listed::Modulus;
use modulus::refusal::Refusal;

// Whether the reduced forms of two lists are one, which is so exactly when the lists are alike.
fn same_form(first: &Coefficients, second: &Coefficients) -> bool
    requires { second.now.modulus.now ≡ first.now.modulus.now }
    ensures yes { result ≡ true → Alike (first.now.modulus.now.prime ^ first.now.modulus.now.exponent) (ints first.now.list.now) (ints second.now.list.now) }
    ensures no { Alike (first.now.modulus.now.prime ^ first.now.modulus.now.exponent) (ints first.now.list.now) (ints second.now.list.now) → result ≡ true }
    ensures told { ToldApart }
{
    first.reduced_form() == second.reduced_form()
}

// Whether the polynomials with these coefficients in powers of X have the same value modulo p ^ e at every whole number.
// Refuses a modulus off the list, then a list of more than 64 and the first coefficient that is not below the modulus, of the first list and then of the second.
#[tactic(auto, using(crate::proofs::Exits::refusals))]
pub fn alike(p: u32, e: u32, first: &[u32], second: &[u32]) -> Result<bool, Refusal>
    ensures { MatchResult result (λ b. Listed p e × Taken (p ^ e) first.now × Taken (p ^ e) second.now × (b ≡ true → Alike (p ^ e) (ints first.now) (ints second.now)) × (Alike (p ^ e) (ints first.now) (ints second.now) → b ≡ true) × ToldApart) (λ f. NoComparison p e first.now second.now f) }
{
    let modulus = Modulus::new(p, e)?;
    let first = Coefficients::new(&modulus, first)?;
    let second = Coefficients::new(&modulus, second)?;
    Ok(same_form(&first, &second))
}
