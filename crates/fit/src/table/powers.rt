// The reported polynomial in powers of X.
ghost use Rattle.std.specs.Prelude.{◌≡◌, ◌<◌, ◌≤◌, length, take, drop, MatchResult};
ghost use Rattle.fit.specs.Standing.{WrittenPowers, report_length};

use crate::table::Fit;
use modulus::refusal::Refusal;
use poly::powers::powers;

impl Fit {
    // Writes the coefficients in powers of X to the front of the buffer, if they fit. `needed` is given, so that the clauses speak of one number.
    fn write_powers(&self, out: &mut [u16], needed: usize) -> Result<usize, Refusal>
        requires { needed ≡ report_length self.now }
        ensures { MatchResult result (λ _. (needed ≤ length out.old) × WrittenPowers self.now (take needed out.new) × (drop needed out.new ≡ drop needed out.old)) (λ f. (f ≡ Refusal.ShortBuffer needed) × (length out.old < needed) × (out.new ≡ out.old)) }
    {
        powers(&self.modulus, &self.coefficients[..needed], out)
    }

    // Writes the coefficients of the reported polynomial in powers of X, each below the modulus, as many as a report has, and answers how many;
    // what lies past them stays. Refuses where the buffer is too short, and then leaves it as it is.
    // Not one function with `report`: of a closure that writes, the contract would have to repeat its clauses, for two callers.
    pub fn powers(&self, out: &mut [u16]) -> Result<usize, Refusal>
        ensures { MatchResult result (λ n. (n ≡ report_length self.now) × (n ≤ length out.old) × WrittenPowers self.now (take n out.new) × (drop n out.new ≡ drop n out.old)) (λ f. (f ≡ Refusal.ShortBuffer (report_length self.now)) × (length out.old < report_length self.now) × (out.new ≡ out.old)) }
    {
        let needed = self.needed();
        self.write_powers(out, needed)?;
        Ok(needed)
    }
}
