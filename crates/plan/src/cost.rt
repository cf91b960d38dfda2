// What a step list costs. `as` stands where the library has no `From`; the check shows that nothing is lost.
ghost use Rattle.std.specs.Prelude.{◌≡◌, ℕ, ◌+◌, ◌<◌, ◌≤◌, length, MatchResult, slice_index};
ghost use Rattle.plan.specs.Steps.{depth_by, depth_of, multiplications_of};

use crate::check::STEPS;
use crate::step::{Op, Step};
use modulus::refusal::Refusal;

// One more than the greatest number that a tray can have.
const NUMBERS: usize = 256;

// A list's number of steps, how many of them multiply, and its depth: the greatest number of multiplications that lie one behind the other.
#[derive(Clone, Copy, PartialEq, Eq, Debug)]
pub struct Price {
    pub steps: usize,
    pub multiplications: u32,
    pub depth: u32,
}

// What a multiplication and a scaling add to a depth.
#[derive(Clone, Copy)]
struct Weights {
    multiply: u32,
    scale: u32,
    ghost small: { multiply + scale ≤ 32 },
}

// A cost counts multiplications alone.
const WEIGHTS: Weights = Weights {
    multiply: 1,
    scale: 0,
};

impl Weights {
    // The depth that a step gives its tray.
    fn depth_at(self, depths: &[u32; NUMBERS], s: Step) -> u32
        requires { (t : ℕ) → slice_index depths.now t ≤ 65535 }
        ensures { result ≡ depth_by self.multiply self.scale depths.now s s.op }
    {
        let a = depths[usize::from(s.a)];
        let b = depths[usize::from(s.b)];
        match s.op {
            Op::Add => a.max(b),
            Op::Multiply => a.max(b) + self.multiply,
            Op::Scale => a + self.scale,
            Op::Shift => a,
        }
    }

    // The list's depth. Each step changes the table that the next one reads.
    fn depth(self, steps: &[Step]) -> u32
        requires { length steps.now ≤ 160 }
        ensures { result ≡ depth_of self.multiply self.scale steps.now }
    {
        let mut depths = [0; NUMBERS];
        let mut greatest: u32 = 0;
        for s in steps {
            let here = self.depth_at(&depths, *s);
            depths[usize::from(s.to)] = here;
            greatest = greatest.max(here);
        }
        greatest
    }
}

// How many steps multiply.
fn multiplications(steps: &[Step]) -> u32
    requires { length steps.now ≤ 160 }
    ensures { result ≡ multiplications_of steps.now }
{
    steps.iter().filter(|s| s.op == Op::Multiply).count() as u32
}

// The cost of a step list, good or not; refuses a list of more than 160 steps, which is bad at step 160 at the latest.
pub fn cost(steps: &[Step]) -> Result<Price, Refusal>
    ensures { MatchResult result (λ c. (length steps.now ≤ 160) × (c.steps ≡ length steps.now) × (c.multiplications ≡ multiplications_of steps.now) × (c.depth ≡ depth_of 1 0 steps.now)) (λ f. (160 < length steps.now) × (f ≡ Refusal.BadStep 160)) }
{
    if steps.len() > STEPS {
        return Err(Refusal::BadStep { step: STEPS });
    }
    Ok(Price {
        steps: steps.len(),
        multiplications: multiplications(steps),
        depth: WEIGHTS.depth(steps),
    })
}
