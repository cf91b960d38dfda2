// Holds: trays that a caller takes for a while, given back on every way out.
ghost use Rattle.std.specs.Prelude.{◌≡◌, ◌+◌, ◌-◌, ◌<◌, ◌≤◌, MatchResult};

use crate::tally::Tally;
use modulus::refusal::Refusal;

// A hold over the tally: its end puts the count back that it found. A hold within it is opened through its `tally`.
pub struct Hold<'a> {
    pub tally: &'a mut Tally,
    before: usize,
}

impl Tally {
    // Opens a hold, which has no trays yet.
    pub fn hold(&mut self) -> Hold<'_>
        ensures lender { result.tally.ghost_name ≡ self.entry.ghost_name }
        ensures same { result.tally.now ≡ self.old }
        ensures before { result.before ≡ self.old.out }
    {
        let before = self.out;
        Hold {
            tally: self,
            before,
        }
    }
}

impl Hold<'_> {
    // Takes k more trays of a rack of this length; refuses where fewer are free, and then has what it had.
    pub fn take(&mut self, k: usize, length: usize) -> Result<(), Refusal>
        ensures lender { self.new.tally.ghost_name ≡ self.old.tally.ghost_name }
        ensures before { self.new.before ≡ self.old.before }
        ensures cases { MatchResult result (λ _. (k ≤ length - self.old.tally.now.out) × (self.new.tally.now.out ≡ self.old.tally.now.out + k)) (λ f. (length - self.old.tally.now.out < k) × (f ≡ Refusal.NoTrays k) × (self.new.tally.now ≡ self.old.tally.now)) }
    {
        self.tally.raise(k, length)
    }
}

impl Drop for Hold<'_> {
    fn drop(self)
        ensures { self.exit.0.now.out ≡ self.entry.before }
    {
        self.tally.out = self.before;
        let Hold {
            tally: _,
            before: _,
        } = self;
    }
}
