// Decides a sale.
ghost use Rattle.std.specs.Prelude.{◌≡◌, length, is_ok, if◌then◌else◌};
ghost use Rattle.bundle.specs.Stocks.{bundles_of};
ghost use Rattle.table.specs.Tables.{auction_of, table_of, onto};
ghost use Rattle.vcg.specs.Optimum.{best_worth, outcome_of};
ghost use Rattle.award.specs.Deciding.{decision};

use crate::charging::charge_all;
use crate::choosing::choose_all;
use crate::refusals::AwardRefusal;
use bundle::{Reserve, Supply};
use sheets::Sheet;
use table::{Auction, fill_with_marginals};

// Fills the table, writes the first best choice and what each farm pays, and answers what the choice is worth;
// refused, with no change, where there are more than 48 farms or one of the lent rows has not the length it needs.
// The rows are lent as slices of u64, by a rule of the project: the libraries take no memory from the heap.
// Supply, reserve and sheets apart, as in `fill`.
pub fn decide(
    supply: &Supply,
    reserve: &Reserve,
    sheets: &[Sheet],
    table: &mut [u64],
    award: &mut [u64],
    charges: &mut [u64],
) -> Result<u64, AwardRefusal>
    ensures answer { result ≡ decision (length sheets.now) (bundles_of supply.now) (length table.old) (length award.old) (length charges.old) (best_worth (auction_of supply.now reserve.now sheets.now)) }
    ensures table { table.new ≡ (if is_ok result then onto (table_of (auction_of supply.now reserve.now sheets.now)) table.old else table.old) }
    ensures award { award.new ≡ (if is_ok result then (outcome_of (auction_of supply.now reserve.now sheets.now)).choice else award.old) }
    ensures charges { charges.new ≡ (if is_ok result then (outcome_of (auction_of supply.now reserve.now sheets.now)).charge else charges.old) }
{
    let auction = Auction::new(supply, reserve, sheets)?;
    auction.check_room(table)?;
    if award.len() != sheets.len() {
        return Err(AwardRefusal::Award);
    }
    fill_with_marginals(supply, reserve, sheets, table, charges)?;
    let worth = table[supply.bundles() - 1];
    choose_all(&auction, table, award);
    charge_all(&auction, award, worth, charges);
    Ok(worth)
}
