// The guard under which runs take their own trays. It looks like a `Hold` and is a type of its own below it, by a rule of the project: what a hold gives back can then change without touching runs.
ghost use Rattle.std.specs.Prelude.{◌≡◌};

use crate::tally::Tally;

// A guard over the tally: its end puts the count back that it found.
pub(crate) struct Guard<'a> {
    pub(crate) tally: &'a mut Tally,
    before: usize,
}

impl Tally {
    // A guard over this tally. What is taken on the guard's tally is put back at its end.
    pub(crate) fn guard(&mut self) -> Guard<'_>
        ensures lender { result.tally.ghost_name ≡ self.entry.ghost_name }
        ensures same { result.tally.now ≡ self.old }
        ensures before { result.before ≡ self.old.out }
    {
        let before = self.out;
        Guard {
            tally: self,
            before,
        }
    }
}

impl Drop for Guard<'_> {
    fn drop(self)
        ensures { self.exit.0.now.out ≡ self.entry.before }
    {
        self.tally.out = self.before;
        let Guard {
            tally: _,
            before: _,
        } = self;
    }
}
