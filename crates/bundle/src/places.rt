// The supply: made, counted, and the place of each bundle within it.
ghost use Rattle.std.specs.Prelude.{◌≡◌, ◌+◌, ◌-◌, ◌*◌, ◌≤◌, drop, if◌then◌else◌, Some, None, nat_lt};
ghost use Rattle.std.specs.Option.{option_map};
ghost use Rattle.bundle.specs.Bundles.{units_of};
ghost use Rattle.bundle.specs.Checks.{viewed};
ghost use Rattle.bundle.specs.Stocks.{supply_of, bundles_of, Counted};
ghost use Rattle.bundle.specs.Supplies.{supply_in};
ghost use Rattle.bundle.specs.Units.{place, bundles, bundle_at, next};

use crate::refusals::SupplyRefusal;
use crate::stock::Supply;
use crate::units::Bundle;

// Units of a lot.
const MAX_UNITS: usize = 64;

const MAX_BUNDLES: usize = 4096;

// How many bundles there are within these units; else the first lot that cannot be sold.
fn count_bundles(units: &Bundle) -> Result<usize, SupplyRefusal>
    ensures { Counted (units_of units.now) result }
{
    let mut total = 1;
    for (lot, count) in units.units().iter().enumerate() {
        let count = usize::from(*count);
        if count == 0 || count > MAX_UNITS {
            return Err(SupplyRefusal::Lot(lot));
        }
        total *= count + 1;
        if total > MAX_BUNDLES {
            return Err(SupplyRefusal::Lot(lot));
        }
    }
    Ok(total)
}

impl Supply {
    // The supply of these units, or what is wrong with them first.
    pub fn new(units: &[u8]) -> Result<Supply, SupplyRefusal>
        ensures { viewed supply_of result ≡ supply_in units.now }
    {
        let Some(units) = Bundle::new(units) else {
            return Err(SupplyRefusal::LotCount);
        };
        if units.lots == 0 {
            return Err(SupplyRefusal::LotCount);
        }
        let total = count_bundles(&units)?;
        Ok(Supply { units, total })
    }

    pub fn units(&self) -> Bundle
        ensures { units_of result ≡ supply_of self.now }
    {
        self.units
    }

    // How many bundles there are within the supply.
    pub fn bundles(&self) -> usize
        ensures { result ≡ bundles_of self.now }
    {
        self.total
    }

    // The place of a bundle among them.
    #[tactic(auto, using(crate::proofs::Steps::place_like, crate::proofs::Padding::get_or_units))]
    pub fn place(&self, x: &Bundle) -> usize
        ensures { result ≡ place (supply_of self.now) (units_of x.now) }
    {
        self.place_of_last(x, self.units.lots)
    }

    // The number that the counts of the last `left` lots make.
    // By recursion over the lots that are left, by a rule of the project.
    fn place_of_last(&self, x: &Bundle, left: usize) -> usize
        requires { left ≤ self.now.units.lots }
        ensures is { result ≡ place (drop (self.now.units.lots - left) (supply_of self.now)) (drop (self.now.units.lots - left) x.now.counts) }
        ensures small { result ≤ 255 * left * bundles (drop (self.now.units.lots - left) (supply_of self.now)) }
    {
        if left == 0 {
            return 0;
        }
        let lot = self.units.lots - left;
        let base = usize::from(self.units.counts[lot]) + 1;
        usize::from(x.counts[lot]) + base * self.place_of_last(x, left - 1)
    }

    // The bundle at a place; `None` past the last.
    pub fn bundle_at(&self, place: usize) -> Option<Bundle>
        ensures { option_map units_of result ≡ (if nat_lt place (bundles_of self.now) then Some (bundle_at (supply_of self.now) place) else None) }
    {
        if place >= self.total {
            return None;
        }
        let mut counts = [0; 12];
        let mut left = place;
        // By place: behind a zip over `iter_mut` nothing is known of what was written (tried), and `array::from_fn` will not do, since each
        // count depends on what those before it leave.
        for (lot, most) in self.units.units().iter().enumerate() {
            let base = usize::from(*most) + 1;
            counts[lot] = (left % base) as u8;
            left /= base;
        }
        Some(Bundle {
            counts,
            lots: self.units.lots,
        })
    }

    // The bundle at the next place: one unit more of the first lot that has not all its units yet, and none of the lots before it.
    #[tactic(auto, unfolding(crate::specs::Bundles::units_of))]
    pub fn next(&self, x: &Bundle) -> Bundle
        ensures { units_of result ≡ next (supply_of self.now) (units_of x.now) }
    {
        let mut counts = x.counts;
        let lots = self.units.lots.min(x.lots);
        // By place: behind a zip over `iter_mut` nothing is known of what was written (tried).
        for (lot, most) in self.units.counts[..lots].iter().enumerate() {
            if counts[lot] < *most {
                counts[lot] += 1;
                return Bundle {
                    counts,
                    lots: x.lots,
                };
            }
            counts[lot] = 0;
        }
        Bundle {
            counts,
            lots: x.lots,
        }
    }
}
