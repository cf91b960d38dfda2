// Withdrawals.
ghost use Rattle.std.specs.Prelude.{◌≡◌, ◌<◌, [], ◌∷◌, ◌++◌, MatchResult};
ghost use Rattle.fit.specs.Rules.{NoWithdrawal};
ghost use Rattle.fit.specs.Standing.{stands};

use crate::table::Fit;
use crate::table::places::put;
use modulus::refusal::Refusal;

impl Fit {
    // Takes the last of the standing values out.
    fn take_last(&mut self) -> u16
        requires { 0 < self.old.count }
        ensures modulus { self.new.modulus ≡ self.old.modulus }
        ensures after { stands self.old ≡ stands self.new ++ result ∷ [] }
    {
        let last = self.count - 1;
        let value = self.value_at(last as u16) as u16;
        put(&mut self.coefficients, last as usize, 0);
        self.count = last;
        value
    }

    // Takes the last standing value out of the fit and answers it; refused where nothing stands.
    pub fn withdraw(&mut self) -> Result<u16, Refusal>
        ensures modulus { self.new.modulus ≡ self.old.modulus }
        ensures cases { MatchResult result (λ y. stands self.old ≡ stands self.new ++ y ∷ []) (λ f. NoWithdrawal (stands self.old) f × (self.new ≡ self.old)) }
    {
        if self.count == 0 {
            return Err(Refusal::NothingStands);
        }
        Ok(self.take_last())
    }
}
