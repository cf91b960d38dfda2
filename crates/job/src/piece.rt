// Pieces of text: bytes, numbers, lists, lines, and one piece behind another.
// Each is written at the front of the text that it is lent and leaves the rest as it is.
ghost use Rattle.std.specs.Prelude.{◌≡◌, ℕ, ◌+◌, ◌*◌, ◌≤◌, List, [], ◌∷◌, ◌++◌, length, drop};
ghost use Rattle.job.specs.Text.{joined};

use arrayvec::ArrayVec;
use itoa::{Buffer, Integer};

pub(crate) trait Piece: Copy {
    // The bytes of a piece.
    ghost bytes: { Self → List ℕ };

    // No piece of this type has more bytes.
    ghost most: { ℕ };

    // Answers how many bytes the piece has.
    fn put(self, text: &mut [u8]) -> usize
        requires { most ≤ length text.old }
        ensures few { result ≤ most }
        ensures count { result ≡ length (bytes self) }
        ensures text { text.new ≡ bytes self ++ drop result text.old };
}

impl<const N: usize> Piece for &[u8; N] {
    ghost bytes = { λ key. key.now };

    ghost most = { N };

    fn put(self, text: &mut [u8]) -> usize {
        text[..N].copy_from_slice(self);
        N
    }
}

// A number in decimal digits.
#[derive(Clone, Copy)]
pub(crate) struct Decimal<I>(pub(crate) I);

impl<I: Integer> Piece for Decimal<I> {
    ghost bytes = { λ number. I.text number.0 };

    ghost most = { I.MAX_STR_LEN };

    fn put(self, text: &mut [u8]) -> usize {
        let mut buffer = Buffer::new();
        let digits = buffer.format(self.0).as_bytes();
        let width = digits.len();
        text[..width].copy_from_slice(digits);
        width
    }
}

// One piece behind another: the second is lent the rest of the text.
impl<A: Piece, B: Piece> Piece for (A, B) {
    ghost bytes = { λ pieces. A.bytes pieces.0 ++ B.bytes pieces.1 };

    ghost most = { A.most + B.most };

    fn put(self, text: &mut [u8]) -> usize {
        let at = self.0.put(text);
        at + self.1.put(&mut text[at..])
    }
}

// A key, what stands behind it, and the byte that ends the line.
#[derive(Clone, Copy)]
pub(crate) struct Line<'a, const N: usize, P>(pub(crate) &'a [u8; N], pub(crate) P);

impl<'a, const N: usize, P: Piece> Piece for Line<'a, N, P> {
    ghost bytes = { λ line. line.0.now ++ (P.bytes line.1 ++ 10 ∷ []) };

    ghost most = { N + (P.most + 1) };

    fn put(self, text: &mut [u8]) -> usize {
        (self.0, (self.1, b"\n")).put(text)
    }
}

// The numbers of a list with commas between them.
fn put_joined(list: &[u16], text: &mut [u8]) -> usize
    requires { 6 * length list.now ≤ length text.old }
    ensures few { result ≤ 6 * length list.now }
    ensures count { result ≡ length (joined list.now) }
    ensures text { text.new ≡ joined list.now ++ drop result text.old }
{
    // No error is passed over: an empty list has no bytes.
    let Some((first, rest)) = list.split_first() else {
        return 0;
    };
    let mut at = Decimal(*first).put(text);
    for n in rest {
        at += (b",", Decimal(*n)).put(&mut text[at..]);
    }
    at
}

impl<const N: usize> Piece for &ArrayVec<u16, N> {
    ghost bytes = { λ list. joined list.now.items };

    ghost most = { 6 * N };

    fn put(self, text: &mut [u8]) -> usize {
        put_joined(self.as_slice(), text)
    }
}
