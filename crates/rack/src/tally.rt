// Tallies: how many trays of a rack are out.
ghost use Rattle.std.specs.Prelude.{◌≡◌, ◌+◌, ◌-◌, ◌<◌, ◌≤◌, MatchResult};

use modulus::refusal::Refusal;

// The count of trays that are out. Trays are taken as the next ones above it.
#[derive(Clone, Copy, PartialEq, Eq, Debug)]
pub struct Tally {
    pub(crate) out: usize,
}

impl Tally {
    // A tally with no tray out.
    pub fn new() -> Tally
        ensures { result.out ≡ 0 }
    {
        Tally { out: 0 }
    }

    // How many trays are out.
    pub fn out(&self) -> usize
        ensures { result ≡ self.now.out }
    {
        let Tally { out } = *self;
        out
    }

    // How many trays of a rack of this length are free: its length less the count, or 0.
    pub fn free(&self, length: usize) -> usize
        ensures { result ≡ length - self.now.out }
    {
        length.saturating_sub(self.out)
    }

    // Counts k more trays of a rack of this length as out; refuses where fewer are free, and then leaves the count as it is.
    pub(crate) fn raise(&mut self, k: usize, length: usize) -> Result<(), Refusal>
        ensures { MatchResult result (λ _. (k ≤ length - self.old.out) × (self.new.out ≡ self.old.out + k)) (λ f. (length - self.old.out < k) × (f ≡ Refusal.NoTrays k) × (self.new ≡ self.old)) }
    {
        if self.free(length) < k {
            return Err(Refusal::NoTrays { needed: k });
        }
        self.out += k;
        Ok(())
    }
}
