// The rows of the table, one at a time.
ghost use Rattle.std.specs.Prelude.{◌≡◌, ℕ, ◌+◌, ◌++◌, List, length};
ghost use Rattle.bundle.specs.Bundles.{units_of};
ghost use Rattle.bundle.specs.Stocks.{supply_of, bundles_of};
ghost use Rattle.bundle.specs.Units.{bundle_at};
ghost use Rattle.table.specs.Offers.{AtEach, Computes};
ghost use Rattle.table.specs.Tables.{row, row_below};

use crate::MAX_FARMS;
use crate::auction::Auction;
use crate::offers::{Offers, places_of};
use bundle::{Bundle, Supply};
use sheets::Sheet;

// No units of any lot: the bundle at the first place.
#[tactic(auto, using(bundle::proofs::Bundles::bundle_at_none))]
fn first_bundle(supply: &Supply) -> Bundle
    ensures { units_of result ≡ bundle_at (supply_of supply.now) 0 }
{
    Bundle::empty(supply.units().lots())
}

// Writes what `worth` answers for each bundle and its place.
fn write_row<F: Fn(Bundle, usize) -> u64>(supply: &Supply, entries: &mut [u64], worth: F)
    requires long { length entries.old ≡ bundles_of supply.now }
    requires able { AtEach (supply_of supply.now) (F.pre worth) }
    ensures { (f : List ℕ → ℕ) → Computes (supply_of supply.now) (F.post worth) f → entries.new ≡ row (supply_of supply.now) f }
{
    let mut x = first_bundle(supply);
    for (p, entry) in entries.iter_mut().enumerate() {
        *entry = worth(x, p);
        x = supply.next(&x);
    }
}

impl Auction<'_> {
    ghost use Rattle.sheets.specs.Sheets.{bids_of};
    ghost use Rattle.table.specs.Offers.{Below, HasRoom};
    ghost use Rattle.table.specs.Tables.{from_row, lent_auction, made};

    // Writes the row after those of the farms: what the reserve keeps of each bundle.
    // By places: the row of a farm is a part of the lent table, by a rule of the project.
    pub(crate) fn keep_row(&self, table: &mut [u64])
        requires { HasRoom (lent_auction self.now) table.old }
        ensures { let a = lent_auction self.now in from_row a.supply (length a.bidders) table.new ≡ row a.supply a.keep ++ from_row a.supply (length a.bidders + 1) table.old }
    {
        let many = self.supply.bundles();
        let at = self.sheets.len() * many;
        write_row(
            self.supply,
            &mut table[at..at + many],
            |x, _| self.reserve.worth(&x),
        );
    }

    // Writes the row of a farm: the most that this sheet makes of each bundle, by the row after it.
    // The row of a farm is a part of the lent table, by a rule of the project, and is lent on to be written while the row after it is read.
    pub(crate) fn fill_row(&self, sheet: &Sheet, farm: usize, table: &mut [u64])
        requires { let s = (lent_auction self.now).supply in Below s (from_row s (farm + 1) table.old) }
        ensures { let s = (lent_auction self.now).supply in from_row s farm table.new ≡ row s (made s (from_row s (farm + 1) table.old) (bids_of sheet.now)) ++ from_row s (farm + 1) table.old }
    {
        let lines = sheet.lines();
        let places = places_of(self.supply, lines);
        let offers = Offers {
            supply: self.supply,
            lines,
            places: &places[..lines.len()],
        };
        let many = self.supply.bundles();
        let (above, below) = table.split_at_mut((farm + 1) * many);
        let below = &*below;
        let entries = &mut above[farm * many..];
        write_row(self.supply, entries, |x, p| offers.best_at(below, x, p));
    }
}

// The row below that of a farm, which is the reserve's for the last one; nothing where there is no such farm, or the table is too short.
// Nothing, and no `Option`: the row of a farm is a part of the lent table, by a rule of the project.
pub fn row_below<'a>(table: &'a [u64], sheets: &[Sheet], supply: &Supply, farm: usize) -> &'a [u64]
    ensures { result.now ≡ row_below (length sheets.now) (supply_of supply.now) farm table.now }
{
    if farm >= sheets.len() || farm >= MAX_FARMS {
        return &[];
    }
    let row = supply.bundles();
    let from = (farm + 1) * row;
    table.get(from..from + row).unwrap_or(&[])
}
