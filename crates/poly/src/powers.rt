// Falling factorials and Newton forms in powers of X, modulo p ^ e.
ghost use Rattle.std.specs.Prelude.{◌≡◌, ℕ, ◌+◌, ◌-◌, ◌*◌, ◌%◌, ◌<◌, ◌≤◌, length, take, drop, MatchResult, slice_index};
ghost use Rattle.poly.specs.Polynomial.{falling, form};
ghost use Rattle.poly.specs.Powers.{Holds, NoPowers};

use crate::residue::add_product;
use crate::shift::{COEFFICIENTS, shift_in};
use modulus::listed::Modulus;
use modulus::refusal::{Refusal, check_room};

// Room for the coefficients of a polynomial and for one factor more. No heap is used: a list stands in an array of this length,
// with zeros behind it, since each factor X − i moves into the place behind the last coefficient.
pub(crate) const ROOM: usize = COEFFICIENTS + 1;

// Refuses a list of more than 64 coefficients.
pub(crate) fn check_length(given: usize) -> Result<(), Refusal>
    ensures { MatchResult result (λ _. given ≤ 64) (λ f. (64 < given) × (f ≡ Refusal.OutOfRange given)) }
{
    if given > COEFFICIENTS {
        return Err(Refusal::OutOfRange { given });
    }
    Ok(())
}

// −i modulo p ^ e. A function of its own, so that a wrong sign is refused at its clause. The `as` loses nothing, and the library has no `From` for it.
fn negative(modulus: &Modulus, i: usize) -> u16
    requires { i < 64 }
    ensures { result ≡ (modulus.now.value - i % modulus.now.value) % modulus.now.value }
{
    modulus.negative(i as u32)
}

// Multiplies (X)_i by X − i.
fn next_falling(list: &mut [u16; ROOM], modulus: &Modulus, i: usize)
    requires room { i < 64 }
    requires holds { Holds modulus.now.value (falling i) (i + 1) list.old }
    ensures { Holds modulus.now.value (falling (i + 1)) (i + 1 + 1) list.new }
{
    shift_in(list, modulus, 0, negative(modulus, i), 0);
}

// (X)_i.
pub(crate) fn falling_powers(modulus: &Modulus, i: usize) -> [u16; ROOM]
    requires { i ≤ 64 }
    ensures { Holds modulus.now.value (falling i) (i + 1) result }
{
    let mut list = [0; ROOM];
    list[0] = 1;
    for j in 0..i {
        next_falling(&mut list, modulus, j);
    }
    list
}

// The sum and c times the list, place by place. It makes a new array: a `zip` of `iter_mut` would tell a proof nothing of what it wrote.
pub(crate) fn add_scaled(
    modulus: &Modulus,
    sum: &[u16; ROOM],
    c: u16,
    list: &[u16; ROOM],
) -> [u16; ROOM]
    ensures { (k : ℕ) → slice_index result k ≡ (slice_index sum.now k + c * slice_index list.now k) % modulus.now.value }
{
    std::array::from_fn(|k| add_product(modulus, sum[k], c, list[k]))
}

// The Newton form with these coefficients.
fn form_powers(modulus: &Modulus, coefficients: &[u16]) -> [u16; ROOM]
    requires { length coefficients.now ≤ 64 }
    ensures { Holds modulus.now.value (form coefficients.now) (length coefficients.now) result }
{
    let mut sum = [0; ROOM];
    let mut term = falling_powers(modulus, 0);
    for (i, c) in coefficients.iter().enumerate() {
        sum = add_scaled(modulus, &sum, *c, &term);
        next_falling(&mut term, modulus, i);
    }
    sum
}

// Copies the list to the front of the buffer.
pub(crate) fn copy_front(out: &mut [u16], list: &[u16])
    requires { length list.now ≤ length out.old }
    ensures written { take (length list.now) out.new ≡ list.now }
    ensures beyond { drop (length list.now) out.new ≡ drop (length list.now) out.old }
{
    out[..list.len()].copy_from_slice(list);
}

// The form's coefficients in powers of X, written to the front of the buffer.
fn write_powers(modulus: &Modulus, coefficients: &[u16], out: &mut [u16])
    requires few { length coefficients.now ≤ 64 }
    requires room { length coefficients.now ≤ length out.old }
    ensures written { Holds modulus.now.value (form coefficients.now) (length coefficients.now) (take (length coefficients.now) out.new) }
    ensures beyond { drop (length coefficients.now) out.new ≡ drop (length coefficients.now) out.old }
{
    let sum = form_powers(modulus, coefficients);
    copy_front(out, &sum[..coefficients.len()]);
}

// Writes the coefficients in powers of X, each below the modulus, of the Newton form with these coefficients, as many as it has;
// answers how many, and what lies past them stays. Refuses a list of more than 64 and then a buffer that is too short, and leaves it as it is.
#[tactic(auto, using(crate::proofs::Exits::refusals))]
pub fn powers(modulus: &Modulus, coefficients: &[u16], out: &mut [u16]) -> Result<usize, Refusal>
    ensures { MatchResult result (λ n. (n ≡ length coefficients.now) × (n ≤ 64) × (n ≤ length out.old) × Holds modulus.now.value (form coefficients.now) n (take n out.new) × (drop n out.new ≡ drop n out.old)) (λ f. NoPowers (length coefficients.now) (length out.old) f × (out.new ≡ out.old)) }
{
    let given = coefficients.len();
    check_length(given)?;
    check_room(out.len(), given)?;
    write_powers(modulus, coefficients, out);
    Ok(given)
}
