// Arithmetic on numbers modulo p ^ e.
ghost use Rattle.std.specs.Prelude.{◌≡◌, ◌+◌, ◌*◌, ◌%◌};

use modulus::listed::Modulus;

// sum + a·b modulo p ^ e, which 16 bits always hold, so that `as` loses nothing.
pub(crate) fn add_product(modulus: &Modulus, sum: u16, a: u16, b: u16) -> u16
    ensures { result ≡ (sum + a * b) % modulus.now.value }
{
    ((u32::from(sum) + u32::from(a) * u32::from(b)) % modulus.value()) as u16
}
