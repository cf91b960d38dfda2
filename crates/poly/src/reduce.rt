// Lists in powers of X, and their reduced forms.
ghost use Rattle.std.specs.Prelude.{◌≡◌, ℕ, ◌%◌, ◌^◌, ◌<◌, ◌≤◌, length, take, drop, pos, MatchResult, slice_index};
ghost use Rattle.modulus.specs.Bounds.{Mu, w};
ghost use Rattle.modulus.specs.Congruence.{Cong};
ghost use Rattle.modulus.specs.Moduli.{Listed};
ghost use Rattle.poly.specs.Basis.{ordinary, to_newton};
ghost use Rattle.poly.specs.Equivalents.{GivesBack, Reduces, ints};
ghost use Rattle.poly.specs.Powers.{NoList, NoReduction, Taken};

use crate::powers::{ROOM, check_length, copy_front};
use crate::shift::shift_in;
use modulus::listed::{Modulus, PLACES};
use modulus::refusal::{Refusal, check_room};

// w(i) as a divisor: it is never 0. The place fits `u32`, and the library has no `From` for that.
fn divisor(modulus: &Modulus, i: usize) -> u32
    requires { i < 52 }
    ensures is { result ≡ w modulus.now.prime modulus.now.exponent i }
    ensures some { 0 < result }
{
    modulus.bound(i as u32)
}

// A coefficient in place i, brought below the bound of its place; it stays in 16 bits.
fn below_bound(modulus: &Modulus, i: usize, c: u16) -> u16
    requires { i < 52 }
    ensures { result ≡ c % w modulus.now.prime modulus.now.exponent i }
{
    (u32::from(c) % divisor(modulus, i)) as u16
}

// The coefficients of a form, each brought below the bound of its place.
fn bring_below_bounds(modulus: &Modulus, form: &[u16], reduced: &mut [u16])
    requires same_length { length reduced.old ≡ length form.now }
    requires few { length form.now ≤ 52 }
    ensures { (k : ℕ) → k < length form.now → slice_index reduced.new k ≡ slice_index form.now k % w modulus.now.prime modulus.now.exponent k }
{
    for (i, c) in reduced.iter_mut().enumerate() {
        *c = below_bound(modulus, i, form[i]);
    }
}

// At most 64 coefficients in powers of X, each below the modulus.
#[derive(Clone, Copy)]
pub(crate) struct Coefficients<'a> {
    modulus: &'a Modulus,
    list: &'a [u32],
    ghost taken: { Taken modulus.now.value list.now },
}

impl<'a> Coefficients<'a> {
    // Refuses a list of more than 64 coefficients, and then the first coefficient that is not below the modulus.
    #[tactic(auto, using(crate::proofs::Exits::refusals))]
    pub(crate) fn new(modulus: &'a Modulus, list: &'a [u32]) -> Result<Coefficients<'a>, Refusal>
        ensures { MatchResult result (λ c. (c.modulus.now ≡ modulus.now) × (c.list.now ≡ list.now)) (λ f. NoList modulus.now.value list.now f) }
    {
        check_length(list.len())?;
        // A match: `map_or` would put the refusal behind the answer, and is no plainer.
        match list.iter().position(|c| *c >= modulus.value()) {
            Some(place) => Err(Refusal::TooLarge { place }),
            None => Ok(Coefficients { modulus, list }),
        }
    }

    // The Newton form, not yet reduced: from the last coefficient to the first, the form so far times X, and the coefficient,
    // which is below the modulus and so has 16 bits.
    fn newton_form(&self) -> [u16; ROOM]
        ensures { (k : ℕ) → Cong self.now.modulus.now.value (pos (slice_index result k)) (to_newton ordinary (ints self.now.list.now) k) }
    {
        let mut newton = [0; ROOM];
        for c in self.list.iter().rev() {
            shift_in(&mut newton, self.modulus, *c as u16, 0, 1);
        }
        newton
    }

    // The reduced form. Only the places below μ are gone through: in the others it has 0.
    pub(crate) fn reduced_form(&self) -> [u16; PLACES]
        ensures { Reduces self.now.modulus.now.prime self.now.modulus.now.exponent (ints self.now.list.now) result }
    {
        let newton = self.newton_form();
        let open = self.modulus.mu() as usize;
        let mut reduced = [0; PLACES];
        bring_below_bounds(self.modulus, &newton[..open], &mut reduced[..open]);
        reduced
    }

    // Writes the reduced form to the front of the buffer. For `u32` to `usize` the library has no `From`.
    fn write_reduced(&self, out: &mut [u16])
        requires { self.now.modulus.now.mu ≤ length out.old }
        ensures written { Reduces self.now.modulus.now.prime self.now.modulus.now.exponent (ints self.now.list.now) (take self.now.modulus.now.mu out.new) }
        ensures beyond { drop self.now.modulus.now.mu out.new ≡ drop self.now.modulus.now.mu out.old }
        ensures back { GivesBack }
    {
        let reduced = self.reduced_form();
        copy_front(out, &reduced[..self.modulus.mu() as usize]);
    }
}

// Writes the μ coefficients of the reduced form that has the same values modulo p ^ e at every whole number as the polynomial with these coefficients in powers of X;
// answers μ, and what lies past them stays. Refuses a modulus off the list, then a list of more than 64, then the first coefficient that is not below the modulus,
// then a buffer that is too short, and leaves the buffer as it is.
#[tactic(auto, using(crate::proofs::Exits::refusals))]
pub fn reduce(p: u32, e: u32, list: &[u32], out: &mut [u16]) -> Result<usize, Refusal>
    ensures { MatchResult result (λ n. Listed p e × Taken (p ^ e) list.now × Mu p e n × (n ≤ length out.old) × Reduces p e (ints list.now) (take n out.new) × (drop n out.new ≡ drop n out.old) × GivesBack) (λ f. NoReduction p e list.now (length out.old) f × (out.new ≡ out.old)) }
{
    let modulus = Modulus::new(p, e)?;
    let coefficients = Coefficients::new(&modulus, list)?;
    let needed = modulus.mu() as usize;
    check_room(out.len(), needed)?;
    coefficients.write_reduced(out);
    Ok(needed)
}
