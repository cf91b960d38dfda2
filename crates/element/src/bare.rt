// Bare elements: one lane, no end to their level.
ghost use Rattle.std.specs.Prelude.{◌≡◌, [], ◌∷◌};

use crate::lanes::Lanes;

// One lane.
pub type Bare = Lanes<1>;

impl Lanes<1> {
    // A bare element with this lane.
    pub fn new(value: u16) -> Bare
        ensures { result.lanes ≡ value ∷ [] }
    {
        Lanes { lanes: [value] }
    }
}
