// Worked examples of plans and runs, proved of the definitions as one table.
#![tactic(auto)]

ghost use Rattle.std.specs.Prelude.{◌≡◌};
ghost use Rattle.marked_runs.specs.Marked.{Marked, how_many};

// How many marked examples there are; the contract says that each of them holds.
pub fn marked_runs_table() -> usize
    ensures holds { Marked }
    ensures value { result ≡ how_many }
{
    3
}
