// How many places and digits a modulus leaves open.
ghost use Rattle.std.specs.Prelude.{◌≡◌, ◌-◌, ◌≤◌, MatchResult};
ghost use Rattle.modulus.specs.Bounds.{Exponent, Mu, factorial as factorial_of, open_digits, v, w};
ghost use Rattle.modulus.specs.Moduli.{Listed, greatest};

use crate::listed::Modulus;
use crate::refusal::Refusal;
use crate::units::split;

// The number of open places, and the digits in base p that the reduced coefficients have in all:
// there are p ^ digits polynomial functions modulo p ^ e.
#[derive(Clone, Copy, PartialEq, Eq, Debug)]
pub struct Counts {
    pub mu: u32,
    pub digits: u32,
}

impl Modulus {
    // max(e − v(i), 0), the number of digits that the coefficient in place i can have.
    // The contract also says that v(i), by which it is defined, is the exponent of p in i!.
    fn digits_at(&self, i: u32) -> u32
        ensures is { result ≡ self.now.exponent - v self.now.prime i }
        ensures exponent { Exponent self.now.prime (factorial_of i) (v self.now.prime i) }
        ensures small { result ≤ greatest self.now.prime }
    {
        if i >= self.mu() {
            return 0;
        }
        self.exponent() - self.factorial(i).exponent
    }

    // The digits of all places below k, which is at most μ. A loop with two running numbers: a sum of `digits_at` would take each factorial apart again.
    fn digits_below(&self, k: u32) -> u32
        requires { k ≤ self.now.mu }
        ensures { result ≡ open_digits self.now.prime self.now.exponent k }
    {
        let mut reached = 0;
        let mut digits = 0;
        for i in 0..k {
            digits += self.exponent() - reached;
            reached += split(self.prime(), i + 1).exponent;
        }
        digits
    }

    // w(i), the bound of place i.
    #[tactic(auto, using(crate::proofs::Bounds::power_fits))]
    pub fn bound(&self, i: u32) -> u32
        ensures { result ≡ w self.now.prime self.now.exponent i }
    {
        self.prime().pow(self.digits_at(i))
    }

    // μ and the sum of max(e − v(i), 0) over the places i below it.
    pub fn count(&self) -> Counts
        ensures mu { Mu self.now.prime self.now.exponent result.mu }
        ensures digits { result.digits ≡ open_digits self.now.prime self.now.exponent result.mu }
        ensures small { result.mu ≤ 52 }
    {
        let mu = self.mu();
        let digits = self.digits_below(mu);
        Counts { mu, digits }
    }
}

// The count of p ^ e; refuses where it is off the list.
pub fn count(p: u32, e: u32) -> Result<Counts, Refusal>
    ensures { MatchResult result (λ c. Listed p e × Mu p e c.mu × (c.mu ≤ 52) × (c.digits ≡ open_digits p e c.mu)) (λ f. (Listed p e → ⊥) × (f ≡ Refusal.Unlisted)) }
{
    Ok(Modulus::new(p, e)?.count())
}
