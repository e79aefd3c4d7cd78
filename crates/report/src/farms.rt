// The lines of the farms of a closed sale.
ghost use Rattle.std.specs.Prelude.{Some};
ghost use Rattle.report.specs.Lines.{farm_lines};

use std::fmt;

// A line for each farm, of as many as all three rows have: the number of the line that it got (0 for none), what it pays, and what its account holds then.
// Rows apart, since award and charges are lent as slices.
#[derive(Clone, Copy)]
pub struct Farms<'a> {
    pub award: &'a [u64],
    pub charges: &'a [u64],
    pub accounts: &'a [u64],
}

impl<'a> fmt::Display for Farms<'a> {
    ghost output = { λ s. Some (farm_lines 0 s.award.now s.charges.now s.accounts.now) };

    fn fmt<W: fmt::Write>(&self, f: &mut fmt::Formatter<W>) -> fmt::Result {
        let rows = self.award.iter().zip(self.charges).zip(self.accounts);
        for (farm, ((line, pays), has)) in rows.enumerate() {
            writeln!(f, "farm {farm} line {line} pays {pays} has {has}")?;
        }
        Ok(())
    }
}
