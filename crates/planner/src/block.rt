// Block plans. `as` stands here and in ladder.rt where the library has no `From`; the check shows that nothing is lost.
ghost use Rattle.std.specs.Prelude.{◌≡◌, ◌+◌, ◌-◌, ◌*◌, ◌/◌, ◌≤◌, ◌++◌, length, MatchResult};
ghost use Rattle.planner.specs.Layout.{block as block_of, blocks as blocks_of, filled as filled_of, lower as lower_of, multiplies, powers as powers_of, terms as terms_of};

use crate::draft::{Draft, add, multiply, scale, shift};
use crate::issue::LARGEST_BLOCK;
use modulus::refusal::Refusal;
use plan::step::Step;
use poly::shift::COEFFICIENTS;

// How many coefficients a block has, 1 to 8. The tray of this number has the sum of what is done, and the tray above it is scratch.
#[derive(Clone, Copy)]
pub(crate) struct Size {
    value: u8,
    ghost some: { 1 ≤ value },
    ghost few: { value ≤ 8 },
}

// Tray i gets power i + 1 of the input, from the powers of its two halves.
fn power(i: u8) -> Step
    requires some { 1 ≤ i }
    requires few { i ≤ 8 }
    ensures { result ≡ multiplies i ((i + 1) / 2 - 1) ((i + 2) / 2 - 1) }
{
    multiply(i, (i + 1) / 2 - 1, (i + 2) / 2 - 1)
}

// The draft and the coefficients stay two parameters of the methods: a struct that borrows both would have to say of each loan that its lender stays.
impl Size {
    // Refuses a block that has no coefficient or more than 8.
    pub(crate) fn new(size: usize) -> Result<Size, Refusal>
        ensures { MatchResult result (λ s. s.value ≡ size) (λ f. ((1 ≤ size) × (size ≤ 8) → ⊥) × (f ≡ Refusal.OutOfRange size)) }
    {
        if !(1..=LARGEST_BLOCK).contains(&size) {
            return Err(Refusal::OutOfRange { given: size });
        }
        Ok(Size { value: size as u8 })
    }

    // The powers of the input up to this one: tray i has power i + 1.
    fn powers(self, draft: &mut Draft)
        requires { length draft.old.items + self.value ≤ 160 }
        ensures { draft.new.items ≡ draft.old.items ++ powers_of self.value }
    {
        for i in 1..self.value {
            draft.push(power(i));
        }
    }

    // The coefficients of a block behind its first: each times its power, added to tray `size`.
    fn terms(self, draft: &mut Draft, a: &[u16], at: usize)
        requires within { at + self.value ≤ length a.now }
        requires room { length draft.old.items + 2 * self.value ≤ 160 }
        ensures { draft.new.items ≡ draft.old.items ++ terms_of self.value a.now at (self.value - 1) }
    {
        let size = self.value;
        for (i, c) in a[at + 1..at + usize::from(size)].iter().enumerate() {
            draft.push(scale(size + 1, i as u8, *c));
            draft.push(add(size, size, size + 1));
        }
    }

    // The coefficients of one block, from this place on.
    fn filled(self, draft: &mut Draft, a: &[u16], at: usize)
        requires within { at + self.value ≤ length a.now }
        requires room { length draft.old.items + 1 + 2 * self.value ≤ 160 }
        ensures { draft.new.items ≡ draft.old.items ++ filled_of self.value a.now at }
    {
        draft.push(shift(self.value, self.value, a[at]));
        self.terms(draft, a, at);
    }

    // The blocks below this one, the last of them first. They are counted, and not cut into chunks: each contract would have to say
    // that the list is made of whole blocks.
    fn lower(self, draft: &mut Draft, a: &[u16], block: usize)
        requires within { block * self.value ≤ length a.now }
        requires room { length draft.old.items + 2 * self.value * block ≤ 152 }
        ensures { draft.new.items ≡ draft.old.items ++ lower_of self.value a.now block }
    {
        let size = self.value;
        for b in (0..block).rev() {
            draft.push(multiply(size, size, size - 1));
            self.filled(draft, a, b * usize::from(size));
        }
    }

    // The blocks, the top one first.
    fn blocks(self, draft: &mut Draft, a: &[u16], count: usize)
        requires any { 1 ≤ count }
        requires within { count * self.value ≤ length a.now }
        requires room { length draft.old.items + 2 * self.value * count ≤ 152 }
        ensures { draft.new.items ≡ draft.old.items ++ blocks_of self.value a.now count }
    {
        let top = count - 1;
        draft.push(scale(self.value, 0, 0));
        self.filled(draft, a, top * usize::from(self.value));
        self.lower(draft, a, top);
    }

    // The block plan of this size over the first coefficients, at most 52; the last block may read past them.
    #[tactic(auto, using(crate::proofs::Drafts::block_whole))]
    pub(crate) fn block(self, a: &[u16; COEFFICIENTS], used: usize) -> Draft
        requires { used ≤ 52 }
        ensures { result.items ≡ block_of self.value a.now used }
    {
        let mut draft = Draft::new();
        if used == 0 {
            draft.push(scale(1, 0, 0));
            return draft;
        }
        self.powers(&mut draft);
        self.blocks(&mut draft, a, used.div_ceil(usize::from(self.value)));
        draft
    }
}
