// The auction that a table is filled for.
ghost use Rattle.std.specs.Prelude.{◌≡◌, ◌≤◌, length};

use crate::MAX_FARMS;
use crate::refusals::TableRefusal;
use bundle::{Reserve, Supply};
use sheets::Sheet;

// What is for sale, the reserve, and the sheet of each farm, at most 48.
// Shown by a view: its fields are public, and a model would hide them.
#[derive(Clone, Copy)]
pub struct Auction<'a> {
    pub supply: &'a Supply,
    pub reserve: &'a Reserve,
    pub sheets: &'a [Sheet],
    pub ghost few: { length sheets.now ≤ 48 },
}

impl<'a> Auction<'a> {
    ghost use Rattle.bundle.specs.Checks.{viewed};
    ghost use Rattle.bundle.specs.Stocks.{bundles_of};
    ghost use Rattle.table.specs.Refusals.{auction_answer, room_answer};
    ghost use Rattle.table.specs.Tables.{lent_auction, first_bidders};

    // Refused for more than 48 farms.
    pub fn new(
        supply: &'a Supply,
        reserve: &'a Reserve,
        sheets: &'a [Sheet],
    ) -> Result<Auction<'a>, TableRefusal>
        ensures { viewed lent_auction result ≡ auction_answer supply.now reserve.now sheets.now }
    {
        if sheets.len() > MAX_FARMS {
            return Err(TableRefusal::Farms);
        }
        Ok(Auction {
            supply,
            reserve,
            sheets,
        })
    }

    // The auction of the farms before this one.
    pub(crate) fn before(&self, farm: usize) -> Auction<'a>
        requires { farm ≤ length self.now.sheets.now }
        ensures { lent_auction result ≡ first_bidders farm (lent_auction self.now) }
    {
        Auction {
            supply: self.supply,
            reserve: self.reserve,
            sheets: &self.sheets[..farm],
        }
    }

    // Refused where the table has not a row for each farm and one for the reserve.
    pub fn check_room(&self, table: &[u64]) -> Result<(), TableRefusal>
        ensures { result ≡ room_answer (length self.now.sheets.now) (bundles_of self.now.supply.now) (length table.now) }
    {
        if table.len() < (self.sheets.len() + 1) * self.supply.bundles() {
            return Err(TableRefusal::Table);
        }
        Ok(())
    }
}
