// A step list as it is written down, and single steps.
ghost use Rattle.std.specs.Prelude.{◌≡◌};
ghost use Rattle.planner.specs.Layout.{adds, multiplies, scales, shifts};

use arrayvec::ArrayVec;
use plan::check::STEPS;
use plan::step::{Op, Step};

// One function for each kind of step, and not one that takes the kind: a layout then reads as the list of its steps.
// Tray `to` is the sum of the trays a and b.
pub(crate) fn add(to: u8, a: u8, b: u8) -> Step
    ensures { result ≡ adds to a b }
{
    Step {
        op: Op::Add,
        to,
        a,
        b,
        k: 0,
    }
}

// Tray `to` is tray a times tray b.
pub(crate) fn multiply(to: u8, a: u8, b: u8) -> Step
    ensures { result ≡ multiplies to a b }
{
    Step {
        op: Op::Multiply,
        to,
        a,
        b,
        k: 0,
    }
}

// Tray `to` is tray a times k.
pub(crate) fn scale(to: u8, a: u8, k: u16) -> Step
    ensures { result ≡ scales to a k }
{
    Step {
        op: Op::Scale,
        to,
        a,
        b: 0,
        k,
    }
}

// Tray `to` is tray a plus k.
pub(crate) fn shift(to: u8, a: u8, k: u16) -> Step
    ensures { result ≡ shifts to a k }
{
    Step {
        op: Op::Shift,
        to,
        a,
        b: 0,
        k,
    }
}

// A step list as it is written, with room for the most steps of a list.
pub(crate) type Draft = ArrayVec<Step, STEPS>;
