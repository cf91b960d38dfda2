// One step of a change of basis.
ghost use Rattle.std.specs.Prelude.{◌≡◌, ◌+◌, ◌*◌, ◌≤◌, length};
ghost use Rattle.poly.specs.Shift.{shifted};

use crate::residue::add_product;
use modulus::listed::Modulus;

// The most coefficients of a list in powers of X.
pub const COEFFICIENTS: usize = 64;

// Each coefficient becomes, modulo p ^ e, the one before it plus its own times t; before the first one stands `first`, and t grows by `by` from place to place.
// With t = −i and by = 0 this multiplies by X − i; with t = 0 and by = 1 it multiplies a Newton form by X and adds `first`.
pub(crate) fn shift_in(list: &mut [u16], modulus: &Modulus, first: u16, mut t: u16, by: u16)
    requires { t + by * length list.old ≤ 65535 }
    ensures { list.new ≡ shifted modulus.now.value first t by list.old }
{
    let mut before = first;
    for c in list.iter_mut() {
        let old = *c;
        *c = add_product(modulus, before, t, old);
        before = old;
        t += by;
    }
}
