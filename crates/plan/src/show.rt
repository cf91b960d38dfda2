// How steps and prices are printed.
use crate::cost::Price;
use crate::step::{Op, Step};
use std::fmt;

impl fmt::Display for Step {
    fn fmt<W: fmt::Write>(&self, f: &mut fmt::Formatter<W>) -> fmt::Result {
        let Step { op, to, a, b, k } = *self;
        match op {
            Op::Add => write!(f, "tray {to} is tray {a} + tray {b}"),
            Op::Multiply => write!(f, "tray {to} is tray {a} * tray {b}"),
            Op::Scale => write!(f, "tray {to} is tray {a} * {k}"),
            Op::Shift => write!(f, "tray {to} is tray {a} + {k}"),
        }
    }
}

impl fmt::Display for Price {
    fn fmt<W: fmt::Write>(&self, f: &mut fmt::Formatter<W>) -> fmt::Result {
        write!(
            f,
            "steps {}, multiplications {}, depth {}",
            self.steps, self.multiplications, self.depth
        )
    }
}
