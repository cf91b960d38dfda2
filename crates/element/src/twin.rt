// Twins: two lanes, no end to their level.
ghost use Rattle.std.specs.Prelude.{◌≡◌, [], ◌∷◌};

use crate::lanes::Lanes;

// Two lanes.
pub type Twin = Lanes<2>;

impl Lanes<2> {
    // A twin with these lanes.
    pub fn new(first: u16, second: u16) -> Twin
        ensures { result.lanes ≡ first ∷ second ∷ [] }
    {
        Lanes {
            lanes: [first, second],
        }
    }
}
