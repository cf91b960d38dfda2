// Single steps over elements.
ghost use Rattle.std.specs.Prelude.{◌≡◌, ◌+◌, ◌<◌, length, MatchResult};
ghost use Rattle.rack.specs.Runs.{Stuck, StuckStep, after_step, given, meaning_of, meanings};

use element::rules::{Element, Spent};
use modulus::listed::Modulus;
use plan::step::{Op, Step};

// What a step gives its tray.
fn result<E: Element>(a: E, b: E, s: Step, modulus: &Modulus) -> Result<E, Spent>
    ensures { let x = meaning_of E.Element.lanes E.Element.level a in let y = meaning_of E.Element.lanes E.Element.level b in MatchResult result (λ r. (Stuck x y s.op → ⊥) × (meaning_of E.Element.lanes E.Element.level r ≡ given modulus.now.value x y s.k s.op)) (λ _. Stuck x y s.op) }
{
    match s.op {
        Op::Add => Ok(a.add(b, modulus)),
        Op::Multiply => a.multiply(b, modulus),
        Op::Scale => Ok(a.scale(s.k, modulus)),
        Op::Shift => Ok(a.shift(s.k, modulus)),
    }
}

// Does one step on the trays from a base on. The base is a parameter for the reason given at `do_steps`.
pub(crate) fn do_step<E: Element>(
    trays: &mut [E],
    base: usize,
    s: Step,
    modulus: &Modulus,
) -> Result<(), Spent>
    requires to { base + s.to < length trays.old }
    requires a { base + s.a < length trays.old }
    requires b { base + s.b < length trays.old }
    ensures { let before = meanings E.Element.lanes E.Element.level trays.old in MatchResult result (λ _. (StuckStep base before s → ⊥) × (meanings E.Element.lanes E.Element.level trays.new ≡ after_step modulus.now.value base before s)) (λ _. StuckStep base before s × (trays.new ≡ trays.old)) }
{
    let a = trays[base + usize::from(s.a)];
    let b = trays[base + usize::from(s.b)];
    let given = result(a, b, s, modulus)?;
    trays[base + usize::from(s.to)] = given;
    Ok(())
}
