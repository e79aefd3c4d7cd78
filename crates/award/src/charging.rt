// What each farm pays.
ghost use Rattle.std.specs.Prelude.{◌≡◌, map, length};
ghost use Rattle.std.specs.List.{range_with_len};
ghost use Rattle.table.specs.Tables.{lent_auction};
ghost use Rattle.vcg.specs.Optimum.{best_worth, best_choice, worth_without, outcome_of};

use crate::choosing::chosen_line;
use table::Auction;

// Turns the worth without each farm into its charge: that, and the stated worth of its line, less the worth of the award.
// What it asks of the rows gives them one place for each farm: a lent row is a plain slice, which can have no invariant.
pub(crate) fn charge_all(auction: &Auction, award: &[u64], worth: u64, charges: &mut [u64])
    requires chosen { award.now ≡ best_choice (lent_auction auction.now) }
    requires best { worth ≡ best_worth (lent_auction auction.now) }
    requires without { charges.old ≡ map (worth_without (lent_auction auction.now)) (range_with_len 0 (length (lent_auction auction.now).bidders)) }
    ensures { charges.new ≡ (outcome_of (lent_auction auction.now)).charge }
{
    // By place: behind a zip over `iter_mut` nothing is known of what was written (tried).
    for (farm, sheet) in auction.sheets.iter().enumerate() {
        let stated = u64::from(chosen_line(sheet, award[farm]).worth);
        charges[farm] = charges[farm] + stated - worth;
    }
}
