// The null polynomials w(i)·(X)_i.
ghost use Rattle.std.specs.Prelude.{◌≡◌, ◌+◌, ◌^◌, ◌<◌, ◌≤◌, length, take, drop, MatchResult};
ghost use Rattle.modulus.specs.Moduli.{Listed};
ghost use Rattle.poly.specs.Equivalents.{Null, Span, ints, null_at};
ghost use Rattle.poly.specs.Powers.{Holds, NoNull};

use crate::powers::{ROOM, add_scaled, copy_front, falling_powers};
use crate::shift::COEFFICIENTS;
use modulus::listed::Modulus;
use modulus::refusal::{Refusal, check_room};

// w(i)·(X)_i. Both `as` lose nothing, and the library has no `From` for them.
fn null_powers(modulus: &Modulus, i: usize) -> [u16; ROOM]
    requires { i ≤ 63 }
    ensures { Holds modulus.now.value (null_at modulus.now.prime modulus.now.exponent i) (i + 1) result }
{
    let bound = (modulus.bound(i as u32) % modulus.value()) as u16;
    add_scaled(modulus, &[0; ROOM], bound, &falling_powers(modulus, i))
}

// w(i)·(X)_i, written to the front of the buffer.
fn write_null(modulus: &Modulus, i: usize, out: &mut [u16])
    requires few { i ≤ 63 }
    requires room { i + 1 ≤ length out.old }
    ensures written { Holds modulus.now.value (null_at modulus.now.prime modulus.now.exponent i) (i + 1) (take (i + 1) out.new) }
    ensures vanishes { Null (modulus.now.prime ^ modulus.now.exponent) (ints (take (i + 1) out.new)) }
    ensures beyond { drop (i + 1) out.new ≡ drop (i + 1) out.old }
    ensures span { Span }
{
    let null = null_powers(modulus, i);
    copy_front(out, &null[..i + 1]);
}

// Writes the i + 1 coefficients in powers of X, modulo p ^ e, of w(i)·(X)_i, which is 0 modulo p ^ e at every whole number; answers how many.
// Refuses a modulus off the list, then a place above 63, then a buffer that is too short, and leaves the buffer as it is; what lies past the coefficients stays.
#[tactic(auto, using(crate::proofs::Exits::refusals))]
pub fn null(p: u32, e: u32, i: usize, out: &mut [u16]) -> Result<usize, Refusal>
    ensures { MatchResult result (λ n. Listed p e × (n ≡ i + 1) × (i ≤ 63) × (n ≤ length out.old) × Holds (p ^ e) (null_at p e i) n (take n out.new) × Null (p ^ e) (ints (take n out.new)) × (drop n out.new ≡ drop n out.old) × Span) (λ f. NoNull p e i (length out.old) f × (out.new ≡ out.old)) }
{
    let modulus = Modulus::new(p, e)?;
    if i >= COEFFICIENTS {
        return Err(Refusal::OutOfRange { given: i });
    }
    let needed = i + 1;
    check_room(out.len(), needed)?;
    write_null(&modulus, i, out);
    Ok(needed)
}
