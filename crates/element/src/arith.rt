// Arithmetic of one lane under a modulus. A number below the modulus fits 16 bits, which the check shows of each cast; `try_from` would have a refusal that never comes.
// The crate poly has a sum with a product of its own: this crate stands on the moduli alone.
ghost use Rattle.std.specs.Prelude.{◌≡◌, ◌+◌, ◌*◌, ◌/◌, ◌%◌};

use modulus::listed::Modulus;

// The sum modulo m.
pub fn sum(a: u16, b: u16, modulus: &Modulus) -> u16
    ensures { result ≡ (a + b) % modulus.now.value }
{
    ((u32::from(a) + u32::from(b)) % modulus.value()) as u16
}

// The product modulo m.
pub fn product(a: u16, b: u16, modulus: &Modulus) -> u16
    ensures { result ≡ (a * b) % modulus.now.value }
{
    (u32::from(a) * u32::from(b) % modulus.value()) as u16
}

// The quotient by the prime.
pub fn quotient(a: u16, modulus: &Modulus) -> u16
    ensures { result ≡ a / modulus.now.prime }
{
    (u32::from(a) / modulus.prime()) as u16
}
