// Ladders.
ghost use Rattle.std.specs.Prelude.{◌≡◌, ◌+◌, ◌*◌, ◌≤◌, [], ◌∷◌, ◌++◌, length};
ghost use Rattle.planner.specs.Layout.{ladder as ladder_of, minus as minus_of, multiplies, rungs as rungs_of, shifts};

use crate::draft::{Draft, multiply, scale, shift};
use modulus::listed::Modulus;

// One rung: tray 2 is the input less i, tray 1 is tray 1 times tray 2, plus c.
fn rung(draft: &mut Draft, modulus: &Modulus, i: u32, c: u16)
    requires { length draft.old.items + 3 ≤ 160 }
    ensures { draft.new.items ≡ draft.old.items ++ shifts 2 0 (minus_of modulus.now.value i) ∷ multiplies 1 1 2 ∷ shifts 1 1 c ∷ [] }
{
    draft.push(shift(2, 0, modulus.negative(i)));
    draft.push(multiply(1, 1, 2));
    draft.push(shift(1, 1, c));
}

// The rungs of these coefficients, the last of them first.
fn rungs(draft: &mut Draft, modulus: &Modulus, coefficients: &[u16])
    requires { length draft.old.items + 3 * length coefficients.now ≤ 160 }
    ensures { draft.new.items ≡ draft.old.items ++ rungs_of modulus.now.value coefficients.now (length coefficients.now) }
{
    for (i, c) in coefficients.iter().enumerate().rev() {
        rung(draft, modulus, i as u32, *c);
    }
}

// The ladder of a Newton form of at most 52 coefficients.
#[tactic(auto, using(crate::proofs::Forms::ladder_ends))]
pub(crate) fn ladder(modulus: &Modulus, coefficients: &[u16]) -> Draft
    requires { length coefficients.now ≤ 52 }
    ensures { result.items ≡ ladder_of modulus.now.value coefficients.now (length coefficients.now) }
{
    let mut draft = Draft::new();
    match coefficients {
        [] => draft.push(scale(1, 0, 0)),
        [only] => {
            draft.push(scale(1, 0, 0));
            draft.push(shift(1, 1, *only));
        }
        [below @ .., second, top] => {
            let n = below.len() as u32;
            draft.push(shift(2, 0, modulus.negative(n)));
            draft.push(scale(1, 2, *top));
            draft.push(shift(1, 1, *second));
            rungs(&mut draft, modulus, below);
        }
    }
    draft
}
