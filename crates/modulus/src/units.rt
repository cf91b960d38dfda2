// Numbers as powers of p times units, and division by a factorial modulo p ^ e.
ghost use Rattle.std.specs.Prelude.{◌≡◌, ◌*◌, ◌/◌, ◌%◌, ◌^◌, ◌<◌, ◌≤◌};
ghost use Rattle.modulus.specs.Bounds.{exponent, factorial as factorial_of, v};
ghost use Rattle.modulus.specs.Moduli.{greatest};
ghost use Rattle.modulus.specs.Quotient.{Quotient};

use crate::listed::Modulus;

// A number as a power of p times what is left of it.
#[derive(Clone, Copy)]
pub(crate) struct PrimePart {
    pub exponent: u32,
    pub rest: u32,
}

// Takes p out of n. A `while`: how often p goes is what it looks for.
pub(crate) fn split(p: u32, n: u32) -> PrimePart
    requires above { 1 < p }
    requires some { 0 < n }
    ensures exponent { result.exponent ≡ exponent p n }
    ensures whole { n ≡ p ^ result.exponent * result.rest }
    ensures unit { 0 < result.rest % p }
    ensures small { result.exponent < n }
{
    let mut exponent = 0;
    let mut rest = n;
    while rest % p == 0 {
        rest /= p;
        exponent += 1;
    }
    PrimePart { exponent, rest }
}

// The inverse modulo p of what p does not divide: u ^ (p − 2).
fn inverse_modulo_prime(p: u32, u: u32) -> u32
    requires listed { 1 ≤ greatest p }
    requires unit { 0 < u % p }
    ensures one { (u * result) % p ≡ 1 }
    ensures small { result < p }
{
    (u64::from(u % p).pow(p - 2) % u64::from(p)) as u32
}

// A rest that the power of p divides, without that power and times the inverse of the unit; one below m over that power is enough.
fn quotient(m: u32, shared: u32, rest: u32, inverse: u32) -> u32
    requires some { 0 < shared }
    requires bounded { 0 < m / shared }
    requires rest { rest ≤ 65535 }
    requires inverse { inverse ≤ 65535 }
    ensures { result ≡ (rest / shared * inverse) % (m / shared) }
{
    rest / shared * inverse % (m / shared)
}

impl Modulus {
    // Takes p out of i!, for a place below μ; what is left of i! is given modulo p ^ e.
    // The range is from 0: over `1..=i` the check takes the last round apart, and each answer stands twice.
    pub(crate) fn factorial(&self, i: u32) -> PrimePart
        requires { i < self.now.mu }
        ensures exponent { result.exponent ≡ v self.now.prime i }
        ensures below { result.exponent < self.now.exponent }
        ensures rest { result.rest ≡ (factorial_of i / self.now.prime ^ v self.now.prime i) % self.now.value }
    {
        let m = self.value();
        let mut exponent = 0;
        let mut rest = 1;
        for j in 0..i {
            let part = split(self.prime(), j + 1);
            exponent += part.exponent;
            rest = rest * (part.rest % m) % m;
        }
        PrimePart { exponent, rest }
    }

    // The inverse modulo p ^ e of what p does not divide: each round doubles the number of digits that are right.
    // A `while`: no range doubles. The negative is taken here, and not by `negative`, which divides once more: that is seen in the time of a call. That the result is below the modulus is said at three functions; a type of such numbers would be no plainer.
    fn inverse(&self, u: u32) -> u32
        requires unit { 0 < u % self.now.prime }
        requires small { u < self.now.value }
        ensures one { (u * result) % self.now.value ≡ 1 }
        ensures small { result < self.now.value }
    {
        let m = self.value();
        let mut r = inverse_modulo_prime(self.prime(), u);
        let mut right = 1;
        while right < self.exponent() {
            r = r * ((2 + (m - u * r % m)) % m) % m;
            right *= 2;
        }
        r
    }

    // The power of p in a part.
    #[tactic(auto, using(crate::proofs::Bounds::power_fits))]
    fn prime_power(&self, part: PrimePart) -> u32
        requires { part.exponent < self.now.exponent }
        ensures { result ≡ self.now.prime ^ part.exponent }
    {
        self.prime().pow(part.exponent)
    }

    // The inverse modulo p ^ e of what is left in a part. Apart from `inverse`, so that a wrong unit is refused at a clause of this function.
    fn inverse_of_rest(&self, part: PrimePart) -> u32
        requires unit { 0 < part.rest % self.now.prime }
        requires small { part.rest < self.now.value }
        ensures one { (part.rest * result) % self.now.value ≡ 1 }
        ensures small { result < self.now.value }
    {
        self.inverse(part.rest)
    }

    // The quotient from place μ on, where i! is 0 modulo p ^ e. The clause here and below is that of `divide_by_factorial`, which picks one of the two.
    fn divide_past(&self, i: u32, rest: u32) -> Option<u32>
        requires { self.now.mu ≤ i }
        ensures { Quotient self.now i rest result }
    {
        (rest % self.value() == 0).then_some(0)
    }

    // The quotient before place μ: the power of p in i! has to divide the rest, and what is left of i! has an inverse.
    #[tactic(auto, using(crate::proofs::Exponents::power_positive))]
    fn divide_before(&self, i: u32, rest: u32) -> Option<u32>
        requires { i < self.now.mu }
        ensures { Quotient self.now i rest result }
    {
        let m = self.value();
        let rest = rest % m;
        let part = self.factorial(i);
        let shared = self.prime_power(part);
        if rest % shared != 0 {
            return None;
        }
        let inverse = self.inverse_of_rest(part);
        Some(quotient(m, shared, rest, inverse))
    }

    // The one number c below w(i) with c·i! = rest modulo p ^ e; none where no number has that.
    pub fn divide_by_factorial(&self, i: u32, rest: u32) -> Option<u32>
        ensures { Quotient self.now i rest result }
    {
        if i >= self.mu() {
            self.divide_past(i, rest)
        } else {
            self.divide_before(i, rest)
        }
    }
}
