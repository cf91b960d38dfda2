// The call that writes the report on a job.
ghost use Rattle.std.specs.Prelude.{◌≡◌, ℕ, ◌<◌, ◌≤◌, List, length, take, drop, MatchResult};
ghost use Rattle.job.specs.Forms.{page_text};
ghost use Rattle.job.specs.Report.{OneReport, Reports};
ghost use Rattle.job.specs.Text.{OneBadLine, OneJob, PlainNumbers};

use crate::figures::figures_of_job;
use crate::page::{Figures, PAGE};
use crate::piece::Piece;
use crate::read::read;
use modulus::refusal::{Refusal, check_room};

// What the report on these bytes says: figures, or a refusal alone.
fn page_of(bytes: &[u8]) -> Result<Figures, Refusal>
    ensures { Reports bytes.now (page_text result) }
{
    let job = read(bytes)?;
    figures_of_job(&job)
}

// Writes the page to the front of the buffer, if there is room for all of it. It is written into a buffer of its own first: how wide it is, is known only then.
fn write_out(text: &mut [u8], page: &Result<Figures, Refusal>) -> Result<usize, Refusal>
    ensures { MatchResult result (λ n. (n ≤ length text.old) × (take n text.new ≡ page_text page.now) × (drop n text.new ≡ drop n text.old)) (λ f. (length text.old < length (page_text page.now)) × (f ≡ Refusal.ShortBuffer (length (page_text page.now))) × (text.new ≡ text.old)) }
{
    let mut bytes = [0; PAGE];
    let width = page.put(&mut bytes);
    check_room(text.len(), width)?;
    text[..width].copy_from_slice(&bytes[..width]);
    Ok(width)
}

// Writes the report on a job, given as text, to the front of the buffer and answers how many bytes it has; what lies past them stays.
// Whatever is wrong with the job is said in the report. Refuses only a buffer that is too short, with the bytes needed, and leaves it as it is.
pub fn report(job: &[u8], text: &mut [u8]) -> Result<usize, Refusal>
    ensures cases { MatchResult result (λ n. (n ≤ length text.old) × Reports job.now (take n text.new) × (drop n text.new ≡ drop n text.old)) (λ f. (out : List ℕ) × Reports job.now out × (length text.old < length out) × (f ≡ Refusal.ShortBuffer (length out)) × (text.new ≡ text.old)) }
    ensures one_job { OneJob }
    ensures one_bad_line { OneBadLine }
    ensures one_report { OneReport }
    ensures plain { PlainNumbers }
{
    let page = page_of(job);
    write_out(text, &page)
}
