// How to add a kind of element: a type of three lanes, made outside the crate that has the other kinds.
// A kind is a Copy type. It says what its lanes and its level are, and has the five operations, whose contracts the interface gives;
// `Open` is for a kind that shows its lanes. Nothing here has a proof file.
// It is a struct of its own, and no `Lanes<3>` of the crate `element`, so that a reader sees all that a new kind has to write.
ghost use Rattle.std.specs.Prelude.{◌≡◌, ◌<◌, [], ◌∷◌};
ghost use Rattle.element.specs.Rules.{endless};
ghost use Rattle.std.proofs.Common.{rules};

use element::arith::{product, quotient, sum};
use element::rules::{Element, Open, Spent};
use modulus::listed::Modulus;

// Three lanes. The ghost fields are where the law `small` is read off.
#[derive(Clone, Copy)]
pub struct Triple {
    first: u16,
    second: u16,
    third: u16,
    ghost first_small: { first < 65536 },
    ghost second_small: { second < 65536 },
    ghost third_small: { third < 65536 },
}

impl Triple {
    // A triple with these lanes.
    pub fn new(first: u16, second: u16, third: u16) -> Triple
        ensures { (result.first ≡ first) × (result.second ≡ second) × (result.third ≡ third) }
    {
        Triple {
            first,
            second,
            third,
        }
    }
}

impl Element for Triple {
    ghost lanes = { λ x. x.first ∷ x.second ∷ x.third ∷ [] };

    ghost level = { λ x. endless };

    ghost width = { 3 };

    ghost wide = { Prim.search rules };

    ghost some = { Prim.search rules };

    ghost small = { Prim.search rules };

    fn add(self, other: Triple, modulus: &Modulus) -> Triple {
        Triple {
            first: sum(self.first, other.first, modulus),
            second: sum(self.second, other.second, modulus),
            third: sum(self.third, other.third, modulus),
        }
    }

    fn multiply(self, other: Triple, modulus: &Modulus) -> Result<Triple, Spent> {
        Ok(Triple {
            first: product(self.first, other.first, modulus),
            second: product(self.second, other.second, modulus),
            third: product(self.third, other.third, modulus),
        })
    }

    fn scale(self, k: u16, modulus: &Modulus) -> Triple {
        Triple {
            first: product(self.first, k, modulus),
            second: product(self.second, k, modulus),
            third: product(self.third, k, modulus),
        }
    }

    fn shift(self, k: u16, modulus: &Modulus) -> Triple {
        Triple {
            first: sum(self.first, k, modulus),
            second: sum(self.second, k, modulus),
            third: sum(self.third, k, modulus),
        }
    }

    fn lower(self, modulus: &Modulus) -> Triple {
        Triple {
            first: quotient(self.first, modulus),
            second: quotient(self.second, modulus),
            third: quotient(self.third, modulus),
        }
    }
}

impl Open for Triple {
    fn lane(&self, i: usize) -> Option<u16> {
        match i {
            0 => Some(self.first),
            1 => Some(self.second),
            2 => Some(self.third),
            _ => None,
        }
    }
}
