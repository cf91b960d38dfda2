// The fit's type. `as` stands in its methods where the library has no `From`; the check shows that nothing is lost.
ghost use Rattle.std.specs.Prelude.{◌≡◌, ℕ, ◌≤◌, slice_index};
ghost use Rattle.poly.specs.Reduced.{Reduced};

use modulus::listed::{Modulus, PLACES};

pub mod offer;
pub mod open;
pub mod places;
pub mod powers;
pub mod report;
pub mod withdraw;

// A fit: a modulus and a table of standing values, kept as the coefficients of its reduced Newton form.
// No value is stored: the one in place i is the form's value at i. From place μ on every coefficient is 0.
// An array, since the count is no length of it: it goes up to p ^ e, and the coefficients past the array are 0.
#[derive(Drop)]
pub struct Fit {
    modulus: Modulus,
    count: u32,
    coefficients: [u16; PLACES],
    ghost within: { count ≤ modulus.value },
    ghost reduced: { Reduced modulus.prime modulus.exponent coefficients },
    ghost clear: { (k : ℕ) → count ≤ k → slice_index coefficients k ≡ 0 },
}
