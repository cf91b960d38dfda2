// The worked examples that the programs take alike.
use crate::polynomials::{Comparison, NullPolynomials};
use plan::step::{Op, Step};

// A table of values modulo p ^ e.
#[derive(Clone, Copy)]
pub struct Table<'a> {
    pub p: u32,
    pub e: u32,
    pub values: &'a [u32],
}

pub const TABLES: [Table<'static>; 7] = [
    Table {
        p: 2,
        e: 3,
        values: &[0, 1, 4, 1, 0],
    },
    Table {
        p: 2,
        e: 3,
        values: &[0, 1, 4, 1, 1],
    },
    Table {
        p: 2,
        e: 2,
        values: &[0, 0, 1],
    },
    Table {
        p: 2,
        e: 2,
        values: &[0, 0, 2],
    },
    Table {
        p: 2,
        e: 2,
        values: &[0, 1, 0, 1],
    },
    Table {
        p: 3,
        e: 2,
        values: &[0, 1, 2, 0, 1, 2],
    },
    Table {
        p: 7,
        e: 1,
        values: &[3, 7, 70000, 6],
    },
];

// A table under a modulus that is not listed.
pub const UNLISTED: Table<'static> = Table {
    p: 2,
    e: 17,
    values: &[0, 1],
};

// Polynomials in powers of X that may be one function.
pub(crate) const COMPARISONS: [Comparison<'static>; 4] = [
    Comparison {
        p: 2,
        e: 2,
        first: &[0, 1],
        second: &[0, 3, 2],
    },
    Comparison {
        p: 2,
        e: 3,
        first: &[0, 0, 1],
        second: &[0, 4, 5],
    },
    Comparison {
        p: 3,
        e: 2,
        first: &[0, 1],
        second: &[0, 0, 0, 1],
    },
    Comparison {
        p: 3,
        e: 2,
        first: &[0, 1],
        second: &[0, 9],
    },
];

pub(crate) const NULL_POLYNOMIALS: [NullPolynomials; 2] = [
    NullPolynomials {
        p: 2,
        e: 3,
        places: 4,
    },
    NullPolynomials {
        p: 3,
        e: 2,
        places: 6,
    },
];

// The steps of X + X(X − 1) modulo 8.
pub const SQUARE: [Step; 6] = [
    Step {
        op: Op::Shift,
        to: 2,
        a: 0,
        b: 0,
        k: 7,
    },
    Step {
        op: Op::Scale,
        to: 1,
        a: 2,
        b: 0,
        k: 1,
    },
    Step {
        op: Op::Shift,
        to: 1,
        a: 1,
        b: 0,
        k: 1,
    },
    Step {
        op: Op::Shift,
        to: 2,
        a: 0,
        b: 0,
        k: 0,
    },
    Step {
        op: Op::Multiply,
        to: 1,
        a: 1,
        b: 2,
        k: 0,
    },
    Step {
        op: Op::Shift,
        to: 1,
        a: 1,
        b: 0,
        k: 0,
    },
];

// The primes of the listed moduli.
pub(crate) const PRIMES: [u32; 7] = [2, 3, 5, 7, 11, 13, 17];
