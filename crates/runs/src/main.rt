// Runs the plans of one table over elements of several kinds and prints what was answered.
#![tactic(auto)]

use anyhow::Context;
use element::bare::Bare;
use element::levelled::Levelled;
use element::rules::Open;
use element::show::LanesOf;
use element::twin::Twin;
use fit::table::Fit;
use modulus::refusal::Refusal;
use plan::check::STEPS;
use plan::step::Step;
use planner::issue::plan;
use planner::kind::Kind;
use rack::rack::Rack;
use rack::run::run;
use rack::tally::Tally;
use shown::steps::Steps;
use std::fmt::Display;

// The modulus 2 ^ 3.
const PRIME: u32 = 2;

const EXPONENT: u32 = 3;

// How many trays a rack has that is long enough, and one that is not.
const TRAYS: usize = 5;

const FEW_TRAYS: usize = 2;

// A line with the lanes of each tray.
fn print_trays<E: Open>(rt: &HostRuntime, trays: &[E]) -> anyhow::Result<()> {
    print!(rt; "    trays after it:")?;
    for x in trays {
        print!(rt; " {}", LanesOf(x))?;
    }
    println!(rt; "")?;
    Ok(())
}

// Runs the steps over the input. Prints the input's lanes, what was answered, and the tally before and after; answers the element, if there is one.
// The rack and the tally are two, here and below, since a hold borrows the tally while the rack is free.
fn print_run<E: Open>(
    rt: &HostRuntime,
    steps: &[Step],
    input: E,
    rack: &mut Rack<'_, E>,
    tally: &mut Tally,
) -> anyhow::Result<Option<E>> {
    println!(rt; "{}:", LanesOf(&input))?;
    println!(rt; "    tally before {}", tally.out())?;
    let answer = run(PRIME, EXPONENT, steps, input, rack, tally);
    match &answer {
        Ok(x) => println!(rt; "    answer {}", LanesOf(x))?,
        Err(refusal) => println!(rt; "    {refusal}")?,
    }
    println!(rt; "    tally after {}", tally.out())?;
    Ok(answer.ok())
}

// A run on a rack over the buffer, with no tray out.
fn run_on<E: Open>(
    rt: &HostRuntime,
    steps: &[Step],
    input: E,
    buffer: &mut [E],
) -> anyhow::Result<Option<E>> {
    let mut rack = Rack::new(buffer);
    let mut tally = Tally::new();
    print_run(rt, steps, input, &mut rack, &mut tally)
}

// A run inside a hold of one tray, which is out meanwhile.
fn run_within<E: Open>(
    rt: &HostRuntime,
    steps: &[Step],
    input: E,
    rack: &mut Rack<'_, E>,
    tally: &mut Tally,
) -> anyhow::Result<()> {
    let mut hold = tally.hold();
    match hold.take(1, rack.len()) {
        Ok(()) => {
            print_run(rt, steps, input, rack, hold.tally)?;
        }
        Err(refusal) => println!(rt; "{refusal}")?,
    }
    Ok(())
}

// A run on a rack over the buffer, with no tray out, and the trays after it.
fn run_alone<E: Open>(
    rt: &HostRuntime,
    title: impl Display + Drop,
    steps: &[Step],
    input: E,
    buffer: &mut [E],
) -> anyhow::Result<()> {
    print!(rt; "  {title}, input ")?;
    run_on(rt, steps, input, buffer)?;
    print_trays(rt, buffer)
}

// A twin.
fn twin(rt: &HostRuntime, steps: &[Step]) -> anyhow::Result<()> {
    let mut buffer = [Twin::new(0, 0); TRAYS];
    run_alone(rt, "twin", steps, Twin::new(3, 6), &mut buffer)
}

// A bare element inside a hold: the run takes the trays above the one that is held.
fn bare_within(rt: &HostRuntime, steps: &[Step]) -> anyhow::Result<()> {
    let mut buffer = [Bare::new(0); TRAYS];
    let mut tally = Tally::new();
    print!(rt; "  bare, inside a hold of one tray, input ")?;
    let mut rack = Rack::new(&mut buffer);
    run_within(rt, steps, Bare::new(3), &mut rack, &mut tally)?;
    println!(rt; "    tally after the hold {}", tally.out())?;
    print_trays(rt, &buffer)
}

// A twin with a level; what is left of it is printed of an answer.
fn levelled(rt: &HostRuntime, steps: &[Step], level: u8) -> anyhow::Result<()> {
    let mut buffer = [Levelled::new(Twin::new(0, 0), 0); TRAYS];
    print!(rt; "  twin at level {level}, input ")?;
    let input = Levelled::new(Twin::new(3, 6), level);
    if let Some(x) = run_on(rt, steps, input, &mut buffer)? {
        println!(rt; "    level left {}", x.left())?;
    }
    print_trays(rt, &buffer)
}

// The steps over each kind of element.
fn kinds(rt: &HostRuntime, steps: &[Step]) -> anyhow::Result<()> {
    println!(rt; "runs of the ladder, on racks of {TRAYS} trays but for the last")?;
    let bare = Bare::new(3);
    run_alone(rt, "bare", steps, bare, &mut [Bare::new(0); TRAYS])?;
    twin(rt, steps)?;
    levelled(rt, steps, 2)?;
    levelled(rt, steps, 0)?;
    bare_within(rt, steps)?;
    let title = format_args!("bare, on a rack of only {FEW_TRAYS} trays");
    run_alone(rt, title, steps, bare, &mut [Bare::new(0); FEW_TRAYS])
}

// Writes the plan of this kind for what stands into the buffer and prints it; answers its steps.
fn written<'a>(
    rt: &HostRuntime,
    fit: &Fit,
    kind: Kind,
    buffer: &'a mut [Step],
) -> anyhow::Result<&'a [Step]> {
    let price = plan(fit, kind, buffer).context("the plan was refused")?;
    let steps = &buffer[..price.steps];
    let indent = "  ";
    print!(rt; "{kind}\n{}", Steps { indent, steps })?;
    Ok(steps)
}

// The ladder for what stands, and its runs.
fn ladder(rt: &HostRuntime, fit: &Fit) -> anyhow::Result<()> {
    let mut buffer = [Step::default(); STEPS];
    let steps = written(rt, fit, Kind::Ladder, &mut buffer)?;
    kinds(rt, steps)
}

// The block plan of size 2 for what stands, and a run that gives what the ladder gave.
fn block(rt: &HostRuntime, fit: &Fit) -> anyhow::Result<()> {
    let mut buffer = [Step::default(); STEPS];
    let steps = written(rt, fit, Kind::Block { size: 2 }, &mut buffer)?;
    println!(rt; "a run of the block plan, on a rack of {TRAYS} trays")?;
    twin(rt, steps)
}

// The fit of the table.
fn fitted(values: &[u32]) -> Result<Fit, Refusal> {
    let mut fit = Fit::new();
    fit.open(PRIME, EXPONENT)?;
    for value in values {
        fit.offer(*value)?;
    }
    Ok(fit)
}

fn main(rt: HostRuntime) -> anyhow::Result<()> {
    println!(rt; "the table 0,1,4,1 modulo {PRIME}^{EXPONENT}")?;
    let fit = fitted(&[0, 1, 4, 1]).context("the table was refused")?;
    ladder(&rt, &fit)?;
    block(&rt, &fit)
}
