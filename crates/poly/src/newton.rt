// Values of Newton forms.
ghost use Rattle.std.specs.Prelude.{◌≡◌, ◌%◌, pos};
ghost use Rattle.modulus.specs.Congruence.{Cong};
ghost use Rattle.poly.specs.Polynomial.{form, value};
ghost use Rattle.poly.specs.Reduced.{value_at};

use crate::residue::add_product;
use modulus::listed::Modulus;

// The sum of c_i·(x)_i modulo p ^ e, by a running product.
fn sum_of_terms(modulus: &Modulus, coefficients: &[u16], x: u16) -> u16
    ensures is { result ≡ value_at coefficients.now x % modulus.now.value }
    ensures polynomial { Cong modulus.now.value (pos result) (value (form coefficients.now) (pos x)) }
{
    let mut sum = 0;
    let mut product = 1;
    let mut factor = x;
    for c in coefficients {
        sum = add_product(modulus, sum, *c, product);
        product = add_product(modulus, 0, product, factor);
        factor = factor.saturating_sub(1);
    }
    sum
}

// The value at x, modulo p ^ e, of the Newton form with these coefficients; below p ^ e.
// A function of its own over `sum_of_terms`, which has the proof, so that a wrong value is refused at a clause of this one.
pub fn evaluate(modulus: &Modulus, coefficients: &[u16], x: u16) -> u32
    ensures is { result ≡ value_at coefficients.now x % modulus.now.value }
    ensures polynomial { Cong modulus.now.value (pos result) (value (form coefficients.now) (pos x)) }
{
    u32::from(sum_of_terms(modulus, coefficients, x))
}
