// A listed modulus, as a type that can hold no other one.
ghost use Rattle.std.specs.Prelude.{◌≡◌, ◌-◌, ◌%◌, ◌^◌, ◌<◌, ◌≤◌, MatchResult};
ghost use Rattle.modulus.specs.Bounds.{Mu};
ghost use Rattle.modulus.specs.Moduli.{Listed, greatest};

use crate::refusal::Refusal;
use crate::units::split;

// The most places that a bound above 1 can have: μ is at most 52 for every listed modulus, and 52 for 13 ^ 4.
pub const PLACES: usize = 52;

// The modulus p ^ e for a listed prime p and exponent e, with its number of open places μ.
#[derive(Clone, Copy)]
pub struct Modulus {
    prime: u32,
    exponent: u32,
    value: u32,
    mu: u32,
    ghost listed: { Listed prime exponent },
    ghost power: { value ≡ prime ^ exponent },
    ghost least: { Mu prime exponent mu },
    ghost above: { 1 < prime },
    ghost large: { 1 < value },
    ghost small: { value ≤ 65536 },
    ghost few: { mu ≤ 52 },
}

// The greatest exponent that is listed with p, or 0.
fn greatest_exponent(p: u32) -> u32
    ensures { result ≡ greatest p }
{
    match p {
        2 => 16,
        3 => 10,
        5 => 6,
        7 => 5,
        11 => 4,
        13 => 4,
        17 => 3,
        _ => 0,
    }
}

// μ, the least i whose factorial p ^ e divides. A `while`: the last i is what it looks for, so there is no range to go over.
fn open_places(p: u32, e: u32) -> u32
    requires { Listed p e }
    ensures { Mu p e result }
{
    let mut i = 0;
    let mut reached = 0;
    while reached < e {
        i += 1;
        reached += split(p, i).exponent;
    }
    i
}

// The modulus p ^ e, which is listed. p and e are two numbers only here, in `open_places`, and in `new` and `count`, which refuse a modulus off the list.
#[tactic(auto, using(crate::proofs::Bounds::power_fits))]
fn listed(p: u32, e: u32) -> Modulus
    requires { Listed p e }
    ensures { (result.prime ≡ p) × (result.exponent ≡ e) }
{
    Modulus {
        prime: p,
        exponent: e,
        value: p.pow(e),
        mu: open_places(p, e),
    }
}

impl Modulus {
    // The modulus p ^ e; refuses where it is off the list.
    pub fn new(p: u32, e: u32) -> Result<Modulus, Refusal>
        ensures { MatchResult result (λ m. Listed p e × (m.prime ≡ p) × (m.exponent ≡ e)) (λ f. (Listed p e → ⊥) × (f ≡ Refusal.Unlisted)) }
    {
        if e == 0 || e > greatest_exponent(p) {
            return Err(Refusal::Unlisted);
        }
        Ok(listed(p, e))
    }

    // The modulus 2, which a new fit has.
    pub fn two() -> Modulus
        ensures { (result.prime ≡ 2) × (result.exponent ≡ 1) }
    {
        listed(2, 1)
    }

    // p
    pub fn prime(&self) -> u32
        ensures is { result ≡ self.now.prime }
        ensures above { 1 < result }
    {
        self.prime
    }

    // e
    pub fn exponent(&self) -> u32
        ensures { result ≡ self.now.exponent }
    {
        self.exponent
    }

    // p ^ e, at most 65,536.
    pub fn value(&self) -> u32
        ensures is { result ≡ self.now.value }
        ensures power { result ≡ self.now.prime ^ self.now.exponent }
        ensures above { 1 < result }
        ensures small { result ≤ 65536 }
    {
        self.value
    }

    // −i modulo p ^ e, which 16 bits hold.
    pub fn negative(&self, i: u32) -> u16
        ensures is { result ≡ (self.now.value - i % self.now.value) % self.now.value }
        ensures below { result < self.now.value }
    {
        let m = self.value();
        ((m - i % m) % m) as u16
    }

    // μ, at most 52: from this place on every bound is 1.
    pub fn mu(&self) -> u32
        ensures is { result ≡ self.now.mu }
        ensures least { Mu self.now.prime self.now.exponent result }
        ensures small { result ≤ 52 }
    {
        self.mu
    }
}
