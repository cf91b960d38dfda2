// Reads a job from standard input and prints the report on it.
#![tactic(auto)]

ghost use Rattle.std.specs.Prelude.{◌≤◌, length, IfOk};

use anyhow::anyhow;
use job::call::report;
use std::io;
use std::io::{Read, Write};

// One byte more than a job can have: enough to know that the input is too long. `BYTES` of the crate job is private; this is one more.
const INPUT: usize = 4097;

// More bytes than any report has: `PAGE` of the crate job, which is private, is 744.
const TEXT: usize = 1024;

// Reads until the input ends or the buffer is full; answers how many bytes came.
// A loop, and no `io::copy`: that tries a read again which a signal interrupted, and this program ends with the error.
fn read_input(rt: &HostRuntime, buffer: &mut [u8]) -> io::Result<usize>
    ensures { IfOk result (λ n. n ≤ length buffer.new) }
{
    let mut input = rt.stdin();
    let mut filled = 0;
    while filled < buffer.len() {
        let came = input.read(&mut buffer[filled..])?;
        if came == 0 {
            break;
        }
        filled += came;
    }
    Ok(filled)
}

// Prints the report on the job that standard input has.
fn run(rt: &HostRuntime) -> anyhow::Result<()> {
    let mut input = [0; INPUT];
    let mut text = [0; TEXT];
    let length = read_input(rt, &mut input)?;
    let written = report(&input[..length], &mut text).map_err(|_| anyhow!(
        "the report is too long"
    ))?;
    rt.stdout().write_all(&text[..written])?;
    Ok(())
}

fn main(rt: HostRuntime) -> anyhow::Result<()> {
    run(&rt)
}
