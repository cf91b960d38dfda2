// What a report says, and the lines that say it.
ghost use Rattle.job.specs.Forms.{figures_text, page_text};
ghost use Rattle.job.specs.Report.{last_lines, refusal_lines};

use crate::piece::{Decimal, Line, Piece};
use arrayvec::ArrayVec;
use modulus::listed::PLACES;
use modulus::refusal::Refusal;

// The most bytes of a page.
pub(crate) const PAGE: usize = 744;

// The figures of the values that stand: how many they are, the coefficients of the reported polynomial and the same in powers of X,
// the multiplications of the ladder, and the refusal of the first value that does not stand.
#[derive(Drop)]
pub(crate) struct Figures {
    pub(crate) standing: usize,
    pub(crate) reduced: ArrayVec<u16, PLACES>,
    pub(crate) powers: ArrayVec<u16, PLACES>,
    pub(crate) multiplications: usize,
    pub(crate) refusal: Option<Refusal>,
}

// A refusal's number and its place.
impl Piece for Refusal {
    ghost bytes = { refusal_lines };

    ghost most = { 36 };

    fn put(self, text: &mut [u8]) -> usize {
        let number = Line(b"refused=", Decimal(self.number()));
        let place = Line(b"at=", Decimal(self.place()));
        (number, place).put(text)
    }
}

// The refusal that ends a page, where there is one.
impl Piece for Option<Refusal> {
    ghost bytes = { last_lines };

    ghost most = { 36 };

    fn put(self, text: &mut [u8]) -> usize {
        // A match: of a closure that writes, a proof knows nothing of the text that it leaves.
        match self {
            None => 0,
            Some(refusal) => refusal.put(text),
        }
    }
}

// The lines of figures.
impl Piece for &Figures {
    ghost bytes = { λ figures. figures_text figures.now };

    ghost most = { 744 };

    fn put(self, text: &mut [u8]) -> usize {
        let standing = Line(b"standing=", Decimal(self.standing));
        let reduced = Line(b"reduced=", &self.reduced);
        let powers = Line(b"powers=", &self.powers);
        let multiplications = Line(b"multiplications=", Decimal(self.multiplications));
        (
            standing,
            (reduced, (powers, (multiplications, self.refusal))),
        )
            .put(text)
    }
}

// The lines of a page, which is figures or a refusal alone.
impl Piece for &Result<Figures, Refusal> {
    ghost bytes = { λ page. page_text page.now };

    ghost most = { 744 };

    fn put(self, text: &mut [u8]) -> usize {
        match self {
            Ok(figures) => figures.put(text),
            Err(refusal) => refusal.put(text),
        }
    }
}
