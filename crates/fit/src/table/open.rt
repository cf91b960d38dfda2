// New and freshly opened fits, and what a fit says of itself.
ghost use Rattle.std.specs.Prelude.{◌≡◌, [], MatchResult};
ghost use Rattle.fit.specs.Standing.{stands};
ghost use Rattle.modulus.specs.Moduli.{Listed};

use crate::table::Fit;
use modulus::listed::{Modulus, PLACES};
use modulus::refusal::Refusal;

// An empty fit.
fn empty(modulus: Modulus) -> Fit
    ensures { (result.modulus ≡ modulus) × (stands result ≡ []) }
{
    Fit {
        modulus,
        count: 0,
        coefficients: [0; PLACES],
    }
}

impl Fit {
    // An empty fit with the modulus 2.
    pub fn new() -> Fit
        ensures { (result.modulus.prime ≡ 2) × (result.modulus.exponent ≡ 1) × (stands result ≡ []) }
    {
        empty(Modulus::two())
    }

    // Sets the modulus p ^ e and empties the fit; refuses where the modulus is off the list, and then leaves the fit as it is.
    pub fn open(&mut self, p: u32, e: u32) -> Result<(), Refusal>
        ensures { MatchResult result (λ _. Listed p e × (self.new.modulus.prime ≡ p) × (self.new.modulus.exponent ≡ e) × (stands self.new ≡ [])) (λ f. (Listed p e → ⊥) × (f ≡ Refusal.Unlisted) × (self.new ≡ self.old)) }
    {
        *self = empty(Modulus::new(p, e)?);
        Ok(())
    }

    // The modulus.
    pub fn modulus(&self) -> Modulus
        ensures { result ≡ self.now.modulus }
    {
        self.modulus
    }

    // How many values stand.
    pub fn count(&self) -> u32
        ensures { result ≡ self.now.count }
    {
        self.count
    }
}
