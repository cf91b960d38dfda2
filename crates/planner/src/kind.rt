// The kinds of plan.

// How a plan is laid out. There are no other kinds, so a `match` picks the layout.
#[derive(Clone, Copy, PartialEq, Eq, Debug)]
pub enum Kind {
    // A ladder: the Newton form, nested from its last coefficient down; one multiplication for each coefficient but the last two.
    Ladder,
    // Blocks of `size` coefficients in powers of X: the powers of the input up to `size`, then one multiplication for each block but the first.
    Block { size: usize },
}
