// Takes worked tables through fits, plans and runs, and prints what was answered.
#![tactic(auto)]

use element::bare::Bare;
use fit::table::Fit;
use full_desk::carry::{Stopped, carry_out};
use full_desk::uses::Use;
use modulus::listed::Modulus;
use modulus::refusal::Refusal;
use plan::check::STEPS;
use plan::cost::Price;
use plan::step::Step;
use planner::issue::{LARGEST_BLOCK, plan};
use planner::kind::Kind;
use rack::rack::Rack;
use rack::tally::Tally;
use shown::lists::{Outcome, Uses};
use shown::polynomials::Report;
use shown::sections::{AllCounts, Polynomials, SquareLists};
use shown::steps::Steps;
use shown::tables::{TABLES, Table, UNLISTED};

// A table of as many values as the modulus.
const WHOLE: Table<'static> = Table {
    p: 17,
    e: 1,
    values: &[3, 1, 4, 1, 5, 9, 2, 6, 5, 3, 5, 8, 9, 7, 9, 3, 2],
};

// The indent of the steps of a list.
const INDENT: &str = "    ";

// The plan of this kind for what stands: what it costs, and its steps.
fn print_plan(rt: &HostRuntime, fit: &Fit, kind: Kind) -> anyhow::Result<()> {
    let mut buffer = [Step::default(); STEPS];
    print!(rt; "  {kind}: ")?;
    match plan(fit, kind, &mut buffer) {
        Ok(price) => {
            let steps = Steps {
                indent: INDENT,
                steps: &buffer[..price.steps],
            };
            print!(rt; "{price}\n{steps}")?;
        }
        Err(refusal) => println!(rt; "{refusal}")?,
    }
    Ok(())
}

// What the block plan of this size costs.
fn block_price(fit: &Fit, size: usize) -> Result<Price, Refusal> {
    let mut buffer = [Step::default(); STEPS];
    plan(fit, Kind::Block { size }, &mut buffer)
}

// The size of the cheapest block plan for what stands: fewest multiplications, then fewest steps.
// A loop: a price may be refused, and `min_by_key` takes no `?`.
fn cheapest_size(fit: &Fit) -> Result<usize, Refusal> {
    let mut best = 1;
    let mut least = block_price(fit, best)?;
    for size in 2..=LARGEST_BLOCK {
        let price = block_price(fit, size)?;
        if (price.multiplications, price.steps) < (least.multiplications, least.steps) {
            best = size;
            least = price;
        }
    }
    Ok(best)
}

// The ladder for what stands, and the cheapest block plan.
fn print_plans(rt: &HostRuntime, fit: &Fit) -> anyhow::Result<()> {
    print_plan(rt, fit, Kind::Ladder)?;
    match cheapest_size(fit) {
        Ok(size) => print_plan(rt, fit, Kind::Block { size })?,
        Err(refusal) => println!(rt; "{refusal}")?,
    }
    Ok(())
}

// Carries out the uses on a freshly opened fit and prints each answer, the report and the plans.
// Over the `Use` of this desk; the other program has the same over its own, without plans.
fn judge(rt: &HostRuntime, p: u32, e: u32, uses: &[Use<Bare>]) -> anyhow::Result<()> {
    println!(rt; "modulo {p}^{e}")?;
    let mut fit = Fit::new();
    let mut steps = [Step::default(); STEPS];
    let mut trays: [Bare; 0] = [];
    let mut rack = Rack::new(&mut trays);
    let mut tally = Tally::new();
    match carry_out(
        rt.alloc(),
        &mut fit,
        p,
        e,
        &mut steps,
        &mut rack,
        &mut tally,
        uses,
    ) {
        Ok(answers) => {
            let answers = answers.as_slice();
            print!(rt; "{}{}", Uses { uses, answers }, Report(&fit))?;
            print_plans(rt, &fit)?;
        }
        Err(Stopped::Refused { refusal }) => println!(rt; "  {refusal}")?,
        Err(stop) => return Err(stop.into()),
    }
    Ok(())
}

// Offers the values of a table.
// Over the `Use` of this desk; the other program has the same over its own.
fn judge_table(rt: &HostRuntime, table: Table<'_>) -> anyhow::Result<()> {
    let uses = table
        .values
        .iter()
        .map(|value| Use::Offer { value: *value })
        .collect::<Vec<_>>(rt.alloc())?;
    judge(rt, table.p, table.e, &uses)
}

// Offers the squares of all numbers below 2^16 modulo 2^16, and one value more than the fit can hold.
// Over the `Use` of this desk; the other program has the same over its own, without plans.
fn judge_full(rt: &HostRuntime) -> anyhow::Result<()> {
    let uses = (0..=65536u32)
        .map(|x| Use::Offer {
            value: x.wrapping_mul(x) % 65536,
        })
        .collect::<Vec<_>>(rt.alloc())?;
    println!(rt; "modulo 2^16, the square of every number")?;
    let mut fit = Fit::new();
    let mut trays: [Bare; 0] = [];
    let mut rack = Rack::new(&mut trays);
    let mut tally = Tally::new();
    let answers = carry_out(
        rt.alloc(),
        &mut fit,
        2,
        16,
        &mut [],
        &mut rack,
        &mut tally,
        &uses,
    )?;
    if let Some(last) = answers.last() {
        println!(rt; "  one value more: {}", Outcome(last))?;
    }
    print!(rt; "{}", Report(&fit))?;
    print_plans(rt, &fit)
}

// Offers, and more withdrawals than there are values.
// Over the `Use` of this desk; the other program has the same over its own.
fn withdrawals(rt: &HostRuntime) -> anyhow::Result<()> {
    let uses = [
        Use::Offer { value: 3 },
        Use::Offer { value: 5 },
        Use::Withdraw,
        Use::Withdraw,
        Use::Withdraw,
        Use::Offer { value: 8 },
    ];
    judge(rt, 5, 2, &uses)
}

// Plans between offers, each into its part of the step buffer.
fn plans_in_a_list(rt: &HostRuntime) -> anyhow::Result<()> {
    let uses = [
        Use::Offer { value: 0 },
        Use::Offer { value: 1 },
        Use::Offer { value: 4 },
        Use::Plan {
            kind: Kind::Ladder,
            start: 0,
            count: 6,
        },
        Use::Plan {
            kind: Kind::Block { size: 2 },
            start: 6,
            count: 8,
        },
        Use::Plan {
            kind: Kind::Block { size: 9 },
            start: 6,
            count: 8,
        },
        Use::Withdraw,
        Use::Plan {
            kind: Kind::Block { size: 2 },
            start: 6,
            count: 8,
        },
    ];
    judge(rt, 2, 3, &uses)
}

fn run(rt: &HostRuntime) -> anyhow::Result<()> {
    println!(rt; "Tables, offered value by value")?;
    for table in TABLES {
        judge_table(rt, table)?;
    }
    judge_table(rt, WHOLE)?;
    println!(rt; "Withdrawals")?;
    withdrawals(rt)?;
    println!(rt; "Plans between offers and withdrawals")?;
    plans_in_a_list(rt)?;
    println!(rt; "A modulus that is not listed")?;
    judge_table(rt, UNLISTED)?;
    println!(rt; "A full fit")?;
    judge_full(rt)?;
    print!(rt; "{Polynomials}")?;
    let square_lists = SquareLists {
        indent: INDENT,
        modulus: &Modulus::new(2, 3)?,
    };
    print!(rt; "{square_lists}{AllCounts}")?;
    Ok(())
}

fn main(rt: HostRuntime) -> anyhow::Result<()> {
    run(&rt)
}
