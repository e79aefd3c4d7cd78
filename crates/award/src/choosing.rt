// The first best choice, read from the table.
ghost use Rattle.std.specs.Prelude.{◌≡◌, length};
ghost use Rattle.sheets.specs.Sheets.{bid_of, bids_of};
ghost use Rattle.table.specs.Tables.{lent_auction, table_of, onto};
ghost use Rattle.vcg.specs.Auction.{chosen};
ghost use Rattle.vcg.specs.Optimum.{best_choice};

use crate::turns::Turn;
use sheets::{Line, Sheet};
use table::{Auction, row_below};

// The line that a choice names; one of no units and no worth at 0, and past the last line.
// By its number, since a row for the award holds numbers, as the printed lines do: 0 is none.
#[tactic(auto, using(crate::proofs::Picks::chosen_none, crate::proofs::Picks::chosen_at))]
pub(crate) fn chosen_line(sheet: &Sheet, number: u64) -> Line
    ensures { bid_of result ≡ chosen (bids_of sheet.now) number }
{
    let none = Line::default();
    let Some(k) = (number as usize).checked_sub(1) else {
        return none;
    };
    sheet.lines().get(k).copied().unwrap_or(none)
}

// Writes the first best choice, farm by farm, each of what those before it leave.
// Asks for one place for each farm, since a lent row is a plain slice, which can have no invariant.
pub(crate) fn choose_all(auction: &Auction, table: &[u64], award: &mut [u64])
    requires filled { onto (table_of (lent_auction auction.now)) table.now ≡ table.now }
    requires room { length award.old ≡ length (lent_auction auction.now).bidders }
    ensures { award.new ≡ best_choice (lent_auction auction.now) }
{
    let supply = auction.supply;
    let row = supply.bundles();
    let mut x = supply.units();
    // By place, as in `charge_all`: behind a zip over `iter_mut` nothing is known of what was written.
    for (farm, sheet) in auction.sheets.iter().enumerate() {
        // The row of a farm is a part of the lent table, by a rule of the project.
        let own = &table[farm * row..];
        let turn = Turn {
            supply,
            below: row_below(table, auction.sheets, supply, farm),
            x,
            target: own[supply.place(&x)],
        };
        let number = turn.choose(sheet);
        award[farm] = number;
        x = x.minus(&chosen_line(sheet, number).units);
    }
}
