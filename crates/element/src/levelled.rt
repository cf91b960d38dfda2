// Levelled elements: an element of any kind, and a number of multiplications that are left.
ghost use Rattle.std.specs.Prelude.{◌≡◌};
ghost use Rattle.element.specs.Rules.{least, left};
ghost use Rattle.std.proofs.Common.{rules};

use crate::rules::{Element, Open, Spent};
use modulus::listed::Modulus;

// The element below, and at most this many multiplications.
#[derive(Clone, Copy)]
pub struct Levelled<E> {
    below: E,
    left: u8,
}

impl<E: Element> Levelled<E> {
    // The element with this many multiplications left.
    pub fn new(below: E, left: u8) -> Levelled<E>
        ensures { (result.below ≡ below) × (result.left ≡ left) }
    {
        Levelled { below, left }
    }

    // How many multiplications are left at this level; the element below may have fewer.
    pub fn left(&self) -> u8
        ensures { result ≡ self.now.left }
    {
        self.left
    }
}

impl<E: Element> Element for Levelled<E> {
    ghost lanes = { λ x. E.Element.lanes x.below };

    ghost level = { λ x. least (left x.left) (E.Element.level x.below) };

    ghost width = { E.Element.width };

    ghost wide = { Prim.search rules };

    ghost some = { Prim.search rules };

    ghost small = { Prim.search rules };

    fn add(self, other: Levelled<E>, modulus: &Modulus) -> Levelled<E> {
        Levelled {
            below: self.below.add(other.below, modulus),
            left: self.left.min(other.left),
        }
    }

    fn multiply(self, other: Levelled<E>, modulus: &Modulus) -> Result<Levelled<E>, Spent> {
        let left = self.left.min(other.left);
        if left == 0 {
            return Err(Spent);
        }
        Ok(Levelled {
            below: self.below.multiply(other.below, modulus)?,
            left: left - 1,
        })
    }

    fn scale(self, k: u16, modulus: &Modulus) -> Levelled<E> {
        Levelled {
            below: self.below.scale(k, modulus),
            left: self.left,
        }
    }

    fn shift(self, k: u16, modulus: &Modulus) -> Levelled<E> {
        Levelled {
            below: self.below.shift(k, modulus),
            left: self.left,
        }
    }

    fn lower(self, modulus: &Modulus) -> Levelled<E> {
        Levelled {
            below: self.below.lower(modulus),
            left: self.left,
        }
    }
}

impl<E: Open> Open for Levelled<E> {
    fn lane(&self, i: usize) -> Option<u16> {
        self.below.lane(i)
    }
}
