// Steps.

// What a step does. There are no other kinds, so a `match` picks what is run: a closure or a trait object would hide that all cases are met.
// The numbers are those by which docs/steps.md names them.
#[derive(Clone, Copy, PartialEq, Eq, Debug, Default)]
pub enum Op {
    // The sum of two trays.
    #[default]
    Add = 0,
    // The product of two trays.
    Multiply = 1,
    // A tray times a number.
    Scale = 2,
    // A tray plus a number.
    Shift = 3,
}

// One step: its result goes into the tray `to`; it reads the tray `a`, an addition and a multiplication also `b`, a scaling and a shift the number `k`.
#[derive(Clone, Copy, PartialEq, Eq, Debug, Default)]
pub struct Step {
    pub op: Op,
    pub to: u8,
    pub a: u8,
    pub b: u8,
    pub k: u16,
}
