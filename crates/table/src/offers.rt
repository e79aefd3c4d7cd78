// What a sheet makes of each bundle.
ghost use Rattle.std.specs.Prelude.{◌≡◌, ◌-◌, ◌<◌, ◌≤◌, ◌++◌, map, length, take, replicate};
ghost use Rattle.bundle.specs.Stocks.{supply_of};
ghost use Rattle.table.specs.Offers.{places_of};

use bundle::{Bundle, Supply};
use sheets::Line;

// The place of what each line wants, so that it is found once for all entries of a row; 0 past the last line.
// An array: a vector of pairs, of a line and its place, is made and moved for each row, which took twice the time where a row is short.
pub(crate) fn places_of(supply: &Supply, lines: &[Line]) -> [usize; 32]
    requires { length lines.now ≤ 32 }
    ensures whole { result ≡ places_of (supply_of supply.now) lines.now ++ replicate (32 - length lines.now) 0 }
    ensures long { length result ≡ 32 }
    ensures front { take (length lines.now) result ≡ places_of (supply_of supply.now) lines.now }
{
    let mut places = [0; 32];
    for (k, line) in lines.iter().enumerate() {
        places[k] = supply.place(&line.units);
    }
    places
}

// The lines of a sheet, and the place of each.
#[derive(Clone, Copy)]
pub(crate) struct Offers<'a, 's> {
    pub(crate) supply: &'a Supply,
    pub(crate) lines: &'s [Line],
    pub(crate) places: &'s [usize],
    ghost placed: { places.now ≡ places_of (supply_of supply.now) lines.now },
}

impl Offers<'_, '_> {
    ghost use Rattle.bundle.specs.Bundles.{units_of};
    ghost use Rattle.bundle.specs.Stocks.{bundles_of};
    ghost use Rattle.bundle.specs.Units.{bundle_at};
    ghost use Rattle.sheets.specs.Sheets.{bid_of};
    ghost use Rattle.table.specs.Offers.{Below};
    ghost use Rattle.table.specs.Tables.{made};

    // The most that the lines, or none of them, make of `x`, which stands at the place `at`, by the row below.
    // The place is handed along, since `write_row` has it at hand, and to find it would go over the lots again.
    pub(crate) fn best_at(&self, below: &[u64], x: Bundle, at: usize) -> u64
        requires below { Below (supply_of self.now.supply.now) below.now }
        requires known { at < bundles_of self.now.supply.now }
        requires stands { units_of x ≡ bundle_at (supply_of self.now.supply.now) at }
        ensures { result ≡ made (supply_of self.now.supply.now) below.now (map bid_of self.now.lines.now) (bundle_at (supply_of self.now.supply.now) at) }
    {
        let mut most = below[at];
        for (line, place) in self.lines.iter().zip(self.places) {
            if line.units.fits(&x) {
                most = most.max(u64::from(line.worth) + below[at - *place]);
            }
        }
        most
    }
}
