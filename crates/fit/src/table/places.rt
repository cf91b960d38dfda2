// The places of a fit: what stands in one, and a coefficient written into one.
ghost use Rattle.std.specs.Prelude.{◌≡◌, ◌%◌, slice_set};
ghost use Rattle.fit.specs.Standing.{power_of};
ghost use Rattle.poly.specs.Reduced.{value_at};

use crate::table::Fit;
use poly::newton::evaluate;

// Writes c at the place, if the list goes so far. By the index, since no contract says what a write through `get_mut` leaves in the list.
pub(crate) fn put(list: &mut [u16], place: usize, c: u16)
    ensures { list.new ≡ slice_set list.old place c }
{
    if place < list.len() {
        list[place] = c;
    }
}

impl Fit {
    // The value at x of the reported polynomial, modulo p ^ e.
    pub(crate) fn value_at(&self, x: u16) -> u32
        ensures { result ≡ value_at self.now.coefficients x % power_of self.now.modulus }
    {
        let mu = self.modulus.mu() as usize;
        evaluate(&self.modulus, &self.coefficients[..mu], x)
    }
}
