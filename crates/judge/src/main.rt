// Takes worked tables through fits and prints what was answered.
#![tactic(auto)]

use desk::carry::{Stopped, carry_out};
use desk::uses::Use;
use fit::table::Fit;
use modulus::listed::Modulus;
use shown::lists::{Outcome, Uses};
use shown::polynomials::Report;
use shown::sections::{AllCounts, Polynomials, SquareLists};
use shown::tables::{TABLES, Table, UNLISTED};

// Carries out the uses on a freshly opened fit and prints each answer and the report.
// Over the `Use` of this desk; the other program has the same over its own, with plans.
fn judge(rt: &HostRuntime, p: u32, e: u32, uses: &[Use]) -> anyhow::Result<()> {
    println!(rt; "modulo {p}^{e}")?;
    let mut fit = Fit::new();
    match carry_out(rt.alloc(), &mut fit, p, e, uses) {
        Ok(answers) => {
            let answers = answers.as_slice();
            print!(rt; "{}{}", Uses { uses, answers }, Report(&fit))?;
        }
        Err(Stopped::Refused { refusal }) => println!(rt; "  {refusal}")?,
        Err(stop) => return Err(stop.into()),
    }
    Ok(())
}

// Offers the values of a table.
// Over the `Use` of this desk; the other program has the same over its own.
fn judge_table(rt: &HostRuntime, table: Table<'_>) -> anyhow::Result<()> {
    let uses = table
        .values
        .iter()
        .map(|value| Use::Offer { value: *value })
        .collect::<Vec<_>>(rt.alloc())?;
    judge(rt, table.p, table.e, &uses)
}

// Offers the squares of all numbers below 2^16 modulo 2^16, and one value more than the fit can hold.
// Over the `Use` of this desk; the other program has the same over its own, with plans.
fn judge_full(rt: &HostRuntime) -> anyhow::Result<()> {
    let uses = (0..=65536u32)
        .map(|x| Use::Offer {
            value: x.wrapping_mul(x) % 65536,
        })
        .collect::<Vec<_>>(rt.alloc())?;
    println!(rt; "modulo 2^16, the square of every number")?;
    let mut fit = Fit::new();
    let answers = carry_out(rt.alloc(), &mut fit, 2, 16, &uses)?;
    if let Some(last) = answers.last() {
        println!(rt; "  one value more: {}", Outcome(last))?;
    }
    print!(rt; "{}", Report(&fit))?;
    Ok(())
}

// Offers, and more withdrawals than there are values.
// Over the `Use` of this desk; the other program has the same over its own.
fn withdrawals(rt: &HostRuntime) -> anyhow::Result<()> {
    let uses = [
        Use::Offer { value: 3 },
        Use::Offer { value: 5 },
        Use::Withdraw,
        Use::Withdraw,
        Use::Withdraw,
        Use::Offer { value: 8 },
    ];
    judge(rt, 5, 2, &uses)
}

fn run(rt: &HostRuntime) -> anyhow::Result<()> {
    println!(rt; "Tables, offered value by value")?;
    for table in TABLES {
        judge_table(rt, table)?;
    }
    println!(rt; "Withdrawals")?;
    withdrawals(rt)?;
    println!(rt; "A modulus that is not listed")?;
    judge_table(rt, UNLISTED)?;
    println!(rt; "A full fit")?;
    judge_full(rt)?;
    print!(rt; "{Polynomials}")?;
    let square_lists = SquareLists {
        indent: "  ",
        modulus: &Modulus::new(2, 3)?,
    };
    print!(rt; "{square_lists}{AllCounts}")?;
    Ok(())
}

fn main(rt: HostRuntime) -> anyhow::Result<()> {
    run(&rt)
}
