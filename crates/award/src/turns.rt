// One farm's turn to choose.
ghost use Rattle.std.specs.Prelude.{◌≡◌, ◌^◌, ◌≤◌, true};
ghost use Rattle.bundle.specs.Bundles.{units_of};
ghost use Rattle.bundle.specs.Stocks.{supply_of};
ghost use Rattle.bundle.specs.Units.{within};
ghost use Rattle.table.specs.Offers.{Below};

use bundle::{Bundle, Supply};
use sheets::{Line, Sheet};

// The units that the farms before it leave, the row below its own, and the worth that its choice is to make of those units.
#[derive(Drop)]
pub(crate) struct Turn<'a> {
    pub(crate) supply: &'a Supply,
    pub(crate) below: &'a [u64],
    pub(crate) x: Bundle,
    pub(crate) target: u64,
    ghost roomy: { Below (supply_of supply.now) below.now },
    ghost held: { within (units_of x) (supply_of supply.now) ≡ true },
}

impl Turn<'_> {
    ghost use Rattle.std.specs.Prelude.{position};
    ghost use Rattle.sheets.specs.Sheets.{bid_of, bids_of};
    ghost use Rattle.vcg.specs.Optimum.{makes, pick};
    ghost use Rattle.award.specs.Turns.{rest_of};

    // The most that the farms after it and the reserve make of a bundle.
    fn worth_below(&self, x: &Bundle) -> u64
        requires { within (units_of x.now) (supply_of self.now.supply.now) ≡ true }
        ensures value { result ≡ rest_of self.now (units_of x.now) }
        ensures small { result ≤ 2 ^ 62 }
    {
        self.below[self.supply.place(x)]
    }

    // Whether a line makes the target.
    fn reaches(&self, line: &Line) -> bool
        ensures { result ≡ makes (rest_of self.now) (units_of self.now.x) self.now.target (bid_of line.now) }
    {
        if !line.units.fits(&self.x) {
            return false;
        }
        let left = self.x.minus(&line.units);
        u64::from(line.worth) + self.worth_below(&left) == self.target
    }

    // The first line that makes it.
    fn first_line(&self, lines: &[Line]) -> Option<usize>
        ensures { result ≡ position (λ l. makes (rest_of self.now) (units_of self.now.x) self.now.target (bid_of l)) lines.now }
    {
        lines.iter().position(|line| self.reaches(line))
    }

    // The farm's choice: none where the target is made without it, else its first line that makes it, by its number from 1.
    // A number, and 0 for none, since the row for the award holds numbers.
    pub(crate) fn choose(&self, sheet: &Sheet) -> u64
        ensures { result ≡ pick (rest_of self.now) (units_of self.now.x) self.now.target (bids_of sheet.now) }
    {
        if self.worth_below(&self.x) == self.target {
            return 0;
        }
        self.first_line(sheet.lines()).map_or(0, |k| k as u64 + 1)
    }
}
