// Reports.
ghost use Rattle.std.specs.Prelude.{◌≡◌, ◌<◌, ◌≤◌, length, take, drop, MatchResult};
ghost use Rattle.fit.specs.Standing.{WrittenReport, report_length};

use crate::table::Fit;
use modulus::listed::PLACES;
use modulus::refusal::{Refusal, check_room};

impl Fit {
    // All coefficients. Apart from `form`, which then needs no proof file: a wrong fit there is refused at its clause.
    fn all_places(&self) -> [u16; PLACES]
        ensures { WrittenReport self.now result }
    {
        self.coefficients
    }

    // The coefficients of the reported polynomial, with zeros behind them.
    pub fn form(&self) -> [u16; PLACES]
        ensures { WrittenReport self.now result }
    {
        self.all_places()
    }

    // How many coefficients a report has.
    pub(crate) fn needed(&self) -> usize
        ensures { result ≡ report_length self.now }
    {
        self.count.min(self.modulus.mu()) as usize
    }

    // Writes the coefficients of the report. `needed` is given, so that the clauses speak of one number.
    fn write_report(&self, out: &mut [u16], needed: usize)
        requires all { needed ≡ report_length self.now }
        requires room { needed ≤ length out.old }
        ensures written { WrittenReport self.now (take needed out.new) }
        ensures beyond { drop needed out.new ≡ drop needed out.old }
    {
        out[..needed].copy_from_slice(&self.coefficients[..needed]);
    }

    // Writes the coefficients of the reported polynomial into the caller's buffer, as many as there are standing values and at most μ,
    // and answers how many; what lies past them stays. Refuses where the buffer is too short, and then leaves it as it is.
    pub fn report(&self, out: &mut [u16]) -> Result<usize, Refusal>
        ensures { MatchResult result (λ n. (n ≡ report_length self.now) × (n ≤ length out.old) × WrittenReport self.now (take n out.new) × (drop n out.new ≡ drop n out.old)) (λ f. (f ≡ Refusal.ShortBuffer (report_length self.now)) × (length out.old < report_length self.now) × (out.new ≡ out.old)) }
    {
        let needed = self.needed();
        check_room(out.len(), needed)?;
        self.write_report(out, needed);
        Ok(needed)
    }
}
