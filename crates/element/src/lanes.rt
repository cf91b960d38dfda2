// Elements that are lanes alone, with no end to their level.
ghost use Rattle.std.specs.Prelude.{◌≡◌, ℕ, ◌<◌, ◌≤◌, max, length, slice_index};
ghost use Rattle.element.specs.Lanewise.{Both, BothOperation, Each, EachOperation};
ghost use Rattle.element.specs.Rules.{endless};
ghost use Rattle.std.proofs.Common.{rules};

use crate::arith::{product, quotient, sum};
use crate::rules::{Element, Open, Spent};
use modulus::listed::Modulus;

// N lanes, at least one. The ghost fields are where the laws are read off.
#[derive(Clone, Copy)]
pub struct Lanes<const N: usize> {
    pub(crate) lanes: [u16; N],
    ghost some: { 1 ≤ N },
    ghost wide: { length lanes ≡ N },
    ghost small: { (i : ℕ) → slice_index lanes i < 65536 },
}

// Loops, and no `map` or `array::from_fn`: both were tried. `map` asks that N lanes and an iterator over them fit in memory, which isn't known at a parameter N; the proof over `array::from_fn` didn't close.
impl<const N: usize> Lanes<N> {
    // Each lane is made by `f` of the one in its place.
    fn each<F: Fn(u16) -> u16>(self, f: F) -> Lanes<N>
        requires { F.IsAlwaysCallable f }
        ensures made { Each (λ x z. F.post f x z) self.entry.lanes result.lanes }
        ensures operations { EachOperation (λ x z. F.post f x z) self.entry.lanes result.lanes }
    {
        let mut made = self.lanes;
        for lane in made.iter_mut() {
            *lane = f(*lane);
        }
        Lanes { lanes: made }
    }

    // Each lane is made by `f` of the two in its place. By the place: with `zip` in its stead, a proof knows nothing of the lanes that the loop leaves in `made`.
    fn both<F: Fn(u16, u16) -> u16>(self, other: Lanes<N>, f: F) -> Lanes<N>
        requires { F.IsAlwaysCallable f }
        ensures made { Both (λ x y z. F.post f x y z) self.entry.lanes other.entry.lanes result.lanes }
        ensures operations { BothOperation (λ x y z. F.post f x y z) self.entry.lanes other.entry.lanes result.lanes }
    {
        let mut made = self.lanes;
        for (i, lane) in made.iter_mut().enumerate() {
            *lane = f(*lane, other.lanes[i]);
        }
        Lanes { lanes: made }
    }
}

impl<const N: usize> Element for Lanes<N> {
    ghost lanes = { λ x. x.lanes };

    ghost level = { λ x. endless };

    // N; the law `some` is due at 0 too, where there is no element.
    ghost width = { max 1 N };

    ghost wide = { Prim.search rules };

    ghost some = { Prim.search rules };

    ghost small = { Prim.search rules };

    fn add(self, other: Lanes<N>, modulus: &Modulus) -> Lanes<N> {
        self.both(other, |x, y| sum(x, y, modulus))
    }

    fn multiply(self, other: Lanes<N>, modulus: &Modulus) -> Result<Lanes<N>, Spent> {
        Ok(self.both(other, |x, y| product(x, y, modulus)))
    }

    fn scale(self, k: u16, modulus: &Modulus) -> Lanes<N> {
        self.each(|x| product(x, k, modulus))
    }

    fn shift(self, k: u16, modulus: &Modulus) -> Lanes<N> {
        self.each(|x| sum(x, k, modulus))
    }

    fn lower(self, modulus: &Modulus) -> Lanes<N> {
        self.each(|x| quotient(x, modulus))
    }
}

impl<const N: usize> Open for Lanes<N> {
    fn lane(&self, i: usize) -> Option<u16> {
        self.lanes.get(i).copied()
    }
}
