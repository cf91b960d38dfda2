// Offers.
ghost use Rattle.std.specs.Prelude.{◌≡◌, ℕ, ◌+◌, ◌*◌, ◌<◌, ◌≤◌, [], ◌∷◌, ◌++◌, pos, MatchOption, MatchResult, ◌≢◌, slice_index};
ghost use Rattle.fit.specs.Range.{InRange};
ghost use Rattle.fit.specs.Rules.{NoOffer, Offered};
ghost use Rattle.fit.specs.Standing.{power_of, stands};
ghost use Rattle.modulus.specs.Bounds.{factorial, w};
ghost use Rattle.modulus.specs.Congruence.{Cong};
ghost use Rattle.poly.specs.Polynomial.{Fits};
ghost use Rattle.poly.specs.Reduced.{value_at};

use crate::table::Fit;
use crate::table::places::put;
use modulus::refusal::Refusal;

// What an accepted offer answers: the place that the value stands in, and the new coefficient.
#[derive(Clone, Copy, PartialEq, Eq, Debug)]
pub struct Accepted {
    pub place: usize,
    pub coefficient: u16,
}

impl Fit {
    // The coefficient by which the reported polynomial takes this value in the next place; none where no integer polynomial does.
    // By `?` and not by `map`, over which the bound of the cast was not proved.
    fn next_coefficient(&self, value: u32) -> Option<u16>
        requires { InRange self.now value }
        ensures { MatchOption result (Fits (power_of self.now.modulus) (stands self.now ++ value ∷ []) → ⊥) (λ c. (c < w self.now.modulus.prime self.now.modulus.exponent self.now.count) × Cong (power_of self.now.modulus) (pos (value_at self.now.coefficients self.now.count + c * factorial self.now.count)) (pos value)) }
    {
        let m = self.modulus.value();
        let sum = self.value_at(self.count as u16);
        let rest = value + (m - sum);
        let c = self.modulus.divide_by_factorial(self.count, rest)?;
        Some(c as u16)
    }

    // One coefficient more. Past the last place it is 0, which needs no memory. That the modulus stays is said here, at the callers, and at `take_last` and `withdraw`: it is about a change, which no type can carry.
    fn append(&mut self, coefficient: u16)
        requires room { self.old.count < self.old.modulus.value }
        requires small { coefficient < w self.old.modulus.prime self.old.modulus.exponent self.old.count }
        ensures modulus { self.new.modulus ≡ self.old.modulus }
        ensures count { self.new.count ≡ self.old.count + 1 }
        ensures same { (i : ℕ) → i < self.old.count → slice_index self.new.coefficients i ≡ slice_index self.old.coefficients i }
        ensures last { slice_index self.new.coefficients self.old.count ≡ coefficient }
    {
        put(&mut self.coefficients, self.count as usize, coefficient);
        self.count += 1;
    }

    // The refusals that need no polynomial: the fit is full, or the value is not below the modulus.
    fn check_range(&self, value: u32) -> Result<(), Refusal>
        ensures { MatchResult result (λ _. InRange self.now value) (λ f. (self.now.count ≡ self.now.modulus.value → f ≡ Refusal.Full self.now.count) × ((self.now.count ≢ self.now.modulus.value) → (self.now.modulus.value ≤ value) × (f ≡ Refusal.TooLarge self.now.count))) }
    {
        let m = self.modulus.value();
        let place = self.count as usize;
        if self.count == m {
            return Err(Refusal::Full { count: place });
        }
        if value >= m {
            return Err(Refusal::TooLarge { place });
        }
        Ok(())
    }

    // The value joins the table if some integer polynomial takes it there. The promise is that of `offer`, where the refusals that need no polynomial are ruled out.
    fn fit_in(&mut self, value: u32) -> Result<Accepted, Refusal>
        requires { InRange self.old value }
        ensures modulus { self.new.modulus ≡ self.old.modulus }
        ensures cases { MatchResult result (λ a. Offered self.old.modulus.prime self.old.modulus.exponent (stands self.old) value a.place a.coefficient × (stands self.new ≡ stands self.old ++ value ∷ [])) (λ f. NoOffer (power_of self.old.modulus) (stands self.old) value f × (self.new ≡ self.old)) }
    {
        let place = self.count as usize;
        let coefficient = self
            .next_coefficient(value)
            .ok_or(Refusal::NoPolynomial { place })?;
        self.append(coefficient);
        Ok(Accepted { place, coefficient })
    }

    // Offers a value for the next place: refused where the fit is full, where the value is not below the modulus,
    // and where no integer polynomial takes the standing values and this one; a refusal leaves the fit as it is.
    pub fn offer(&mut self, value: u32) -> Result<Accepted, Refusal>
        ensures modulus { self.new.modulus ≡ self.old.modulus }
        ensures cases { MatchResult result (λ a. Offered self.old.modulus.prime self.old.modulus.exponent (stands self.old) value a.place a.coefficient × (stands self.new ≡ stands self.old ++ value ∷ [])) (λ f. NoOffer (power_of self.old.modulus) (stands self.old) value f × (self.new ≡ self.old)) }
    {
        self.check_range(value)?;
        self.fit_in(value)
    }
}
