// What the engine says where it refuses.
ghost use Rattle.std.specs.Prelude.{◌≡◌, ◌<◌, ◌≤◌, MatchResult};
ghost use Rattle.modulus.specs.Refusals.{number_of, place_of};

// Each refusal with the place that it names. `number` and `place` give the two figures that a caller is shown.
#[derive(Clone, Copy, PartialEq, Eq, Debug)]
pub enum Refusal {
    // The modulus is off the list.
    Unlisted,
    // A value or a coefficient is not below the modulus; where it stands.
    TooLarge { place: usize },
    // The fit already has as many values as the modulus; how many.
    Full { count: usize },
    // No integer polynomial takes the standing values and the offered one; the place it was offered for.
    NoPolynomial { place: usize },
    // Nothing stands that could be withdrawn.
    NothingStands,
    // The caller's buffer is too short; the count needed.
    ShortBuffer { needed: usize },
    // A block size, a null place or the length of a list is out of range; the number given.
    OutOfRange { given: usize },
    // The first bad step of a step list.
    BadStep { step: usize },
    // Too few trays are free; how many are needed.
    NoTrays { needed: usize },
    // The level is used up at this multiply.
    LevelUsed { step: usize },
    // The number of digits to remove is 0 or above the exponent; the number given.
    BadDigits { digits: usize },
    // The first line of a job that is not as laid out; 0 for a job that is too long, 4 for bytes after line 3.
    BadLine { line: usize },
}

impl Refusal {
    // The refusal's number, 1 to 12. A table, since `as` takes no enum whose variants have fields.
    pub fn number(&self) -> u8
        ensures { result ≡ number_of self.now }
    {
        match *self {
            Refusal::Unlisted => 1,
            Refusal::TooLarge { .. } => 2,
            Refusal::Full { .. } => 3,
            Refusal::NoPolynomial { .. } => 4,
            Refusal::NothingStands => 5,
            Refusal::ShortBuffer { .. } => 6,
            Refusal::OutOfRange { .. } => 7,
            Refusal::BadStep { .. } => 8,
            Refusal::NoTrays { .. } => 9,
            Refusal::LevelUsed { .. } => 10,
            Refusal::BadDigits { .. } => 11,
            Refusal::BadLine { .. } => 12,
        }
    }

    // The place that the refusal names.
    pub fn place(&self) -> usize
        ensures { result ≡ place_of self.now }
    {
        match *self {
            Refusal::Unlisted | Refusal::NothingStands => 0,
            Refusal::TooLarge { place } | Refusal::NoPolynomial { place } => place,
            Refusal::Full { count } => count,
            Refusal::ShortBuffer { needed } | Refusal::NoTrays { needed } => needed,
            Refusal::OutOfRange { given } => given,
            Refusal::BadStep { step } | Refusal::LevelUsed { step } => step,
            Refusal::BadDigits { digits } => digits,
            Refusal::BadLine { line } => line,
        }
    }
}

// Refuses a buffer that has less room than is needed.
pub fn check_room(room: usize, needed: usize) -> Result<(), Refusal>
    ensures { MatchResult result (λ _. needed ≤ room) (λ f. (room < needed) × (f ≡ Refusal.ShortBuffer needed)) }
{
    if room < needed {
        return Err(Refusal::ShortBuffer { needed });
    }
    Ok(())
}
