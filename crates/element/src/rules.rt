// The interface of elements.
ghost use Rattle.std.specs.Prelude.{◌≡◌, ℕ, ◌<◌, ◌≤◌, List, length, IfOk, MatchResult, slice_index};
ghost use Rattle.element.specs.Rules.{Level, Multiples, UsedUp, least, lowered, products, scaled, shifted, Shows, spent, sums};

use modulus::listed::Modulus;

// The refusal of a multiplication: no level is left for it.
#[derive(Clone, Copy, PartialEq, Eq, Debug)]
pub struct Spent;

// An element: lanes, which are numbers below 65,536, as many for every element of the kind, and a level, which says how many multiplications are left.
pub trait Element: Copy {
    ghost lanes: { Self → List ℕ };

    ghost level: { Self → Level };

    ghost width: { ℕ };

    // The sum, lane by lane.
    fn add(self, other: Self, modulus: &Modulus) -> Self
        ensures lanes { lanes result ≡ sums modulus.now.value (lanes self) (lanes other) }
        ensures level { level result ≡ least (level self) (level other) };

    // The product, lane by lane; it takes one off the level, and is refused where none is left.
    fn multiply(self, other: Self, modulus: &Modulus) -> Result<Self, Spent>
        ensures lanes { IfOk result (λ x. lanes x ≡ products modulus.now.value (lanes self) (lanes other)) }
        ensures level { MatchResult result (λ x. (UsedUp (least (level self) (level other)) → ⊥) × (level x ≡ spent (least (level self) (level other)))) (λ _. UsedUp (least (level self) (level other))) };

    // Each lane times k.
    fn scale(self, k: u16, modulus: &Modulus) -> Self
        ensures lanes { lanes result ≡ scaled modulus.now.value k (lanes self) }
        ensures level { level result ≡ level self };

    // Each lane plus k.
    fn shift(self, k: u16, modulus: &Modulus) -> Self
        ensures lanes { lanes result ≡ shifted modulus.now.value k (lanes self) }
        ensures level { level result ≡ level self };

    // Each lane divided by the prime, where every lane is a multiple of it.
    fn lower(self, modulus: &Modulus) -> Self
        ensures lanes { Multiples modulus.now.prime (lanes self) → lanes result ≡ lowered modulus.now.prime (lanes self) }
        ensures level { level result ≡ level self };

    // The laws have no defaults: a default is proved once, where nothing is known of the lanes, so each kind has a search for each.
    ghost wide: { (x : Self) → length (lanes x) ≡ width };

    ghost some: { 1 ≤ width };

    ghost small: { (x : Self) (i : ℕ) → slice_index (lanes x) i < 65536 };
}

// An element that shows a lane by its number.
pub trait Open: Element {
    // The lane with this number; none at or above the count.
    fn lane(&self, i: usize) -> Option<u16>
        ensures { Shows (Self.Element.lanes self.now) i result };
}
