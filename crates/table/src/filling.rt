// Filling the table, from the last farm to the first.
ghost use Rattle.std.specs.Prelude.{◌≡◌, ◌+◌, ◌<◌, map, length, take, is_ok, if◌then◌else◌};
ghost use Rattle.std.specs.List.{range_with_len};
ghost use Rattle.bundle.specs.Stocks.{bundles_of};
ghost use Rattle.vcg.specs.Optimum.{optimum, worth_without};
ghost use Rattle.table.specs.Offers.{HasRoom, SmallRow};
ghost use Rattle.table.specs.Refusals.{fill_answer, marginals_answer, room_answer, without_answer};
ghost use Rattle.table.specs.Tables.{rows, table_of, auction_of, lent_auction, from_row, onto, entry};

use crate::auction::Auction;
use crate::refusals::TableRefusal;
use bundle::{Reserve, Supply};
use sheets::Sheet;

// The table is lent to each, by a rule of the project, and is no field.
impl Auction<'_> {
    // Writes the row of each sheet, from the last to the first, by the row after them.
    fn fill_rows(&self, table: &mut [u64])
        requires { let a = lent_auction self.now in SmallRow a.supply (length a.bidders) table.old }
        ensures { let a = lent_auction self.now in table.new ≡ onto (rows a.supply (entry a.supply (from_row a.supply (length a.bidders) table.old)) a.bidders) table.old }
    {
        for (row, sheet) in self.sheets.iter().enumerate().rev() {
            self.fill_row(sheet, row, table);
        }
    }

    // Fills the front of the table, and leaves the rest as it was; refused, with no change, where it is too short.
    fn fill_table(&self, table: &mut [u64]) -> Result<(), TableRefusal>
        ensures answer { result ≡ room_answer (length self.now.sheets.now) (bundles_of self.now.supply.now) (length table.old) }
        ensures filled { table.new ≡ (if is_ok result then onto (table_of (lent_auction self.now)) table.old else table.old) }
    {
        self.check_room(table)?;
        self.keep_row(table);
        self.fill_rows(table);
        Ok(())
    }

    // The worth of the best choice without a farm, by the rows after it; the rows up to that farm's are then not those of the sale.
    fn worth_without_farm(&self, farm: usize, table: &mut [u64]) -> u64
        requires known { farm < length (lent_auction self.now).bidders }
        requires row { SmallRow (lent_auction self.now).supply (farm + 1) table.old }
        ensures value { let a = lent_auction self.now in result ≡ optimum (entry a.supply (from_row a.supply (farm + 1) table.old)) (take farm a.bidders) a.supply }
        ensures after { let a = lent_auction self.now in from_row a.supply (farm + 1) table.new ≡ from_row a.supply (farm + 1) table.old }
    {
        let none = Sheet::new();
        self.fill_row(&none, farm, table);
        self.before(farm).fill_rows(table);
        table[self.supply.bundles() - 1]
    }

    // Fills the front of the table, and writes for each farm the worth of the best choice without it.
    // Asks for one place for each farm, since a lent row is a plain slice, which can have no invariant. Not one walk with `fill_rows`:
    // what is done before each row writes the table too, and would have to be lent it with its rows filled so far.
    fn fill_each(&self, table: &mut [u64], without: &mut [u64])
        requires long { HasRoom (lent_auction self.now) table.old }
        requires room { length without.old ≡ length (lent_auction self.now).bidders }
        ensures filled { table.new ≡ onto (table_of (lent_auction self.now)) table.old }
        ensures without { let a = lent_auction self.now in without.new ≡ map (worth_without a) (range_with_len 0 (length a.bidders)) }
    {
        self.keep_row(table);
        // By place: behind a zip over `iter_mut` nothing is known of what was written (tried).
        for (farm, sheet) in self.sheets.iter().enumerate().rev() {
            without[farm] = self.worth_without_farm(farm, table);
            self.fill_row(sheet, farm, table);
        }
    }

    // Refused where the row for the worths without each farm has not one place for each.
    fn check_without(&self, without: &[u64]) -> Result<(), TableRefusal>
        ensures { result ≡ without_answer (length self.now.sheets.now) (length without.now) }
    {
        if without.len() != self.sheets.len() {
            return Err(TableRefusal::Without);
        }
        Ok(())
    }
}

// Fills the front of the table, and leaves the rest as it was; refused, with no change, for more than 48 farms and where it is too short.
// Lent the three apart, and not an `Auction`, since any number of sheets is answered.
pub fn fill(
    supply: &Supply,
    reserve: &Reserve,
    sheets: &[Sheet],
    table: &mut [u64],
) -> Result<(), TableRefusal>
    ensures answer { result ≡ fill_answer (length sheets.now) (bundles_of supply.now) (length table.old) }
    ensures filled { table.new ≡ (if is_ok result then onto (table_of (auction_of supply.now reserve.now sheets.now)) table.old else table.old) }
{
    let auction = Auction::new(supply, reserve, sheets)?;
    auction.fill_table(table)
}

// Fills the front of the table as `fill` does, and writes for each farm the worth of the best choice without it, where its
// sheet is replaced by an empty one (a marginal economy, in the field's words); refused, with no change, also where the row
// for these has not one place for each farm.
// Supply, reserve and sheets apart, as in `fill`.
pub fn fill_with_marginals(
    supply: &Supply,
    reserve: &Reserve,
    sheets: &[Sheet],
    table: &mut [u64],
    without: &mut [u64],
) -> Result<(), TableRefusal>
    ensures answer { result ≡ marginals_answer (length sheets.now) (bundles_of supply.now) (length table.old) (length without.old) }
    ensures filled { table.new ≡ (if is_ok result then onto (table_of (auction_of supply.now reserve.now sheets.now)) table.old else table.old) }
    ensures without { without.new ≡ (if is_ok result then map (worth_without (auction_of supply.now reserve.now sheets.now)) (range_with_len 0 (length sheets.now)) else without.old) }
{
    let auction = Auction::new(supply, reserve, sheets)?;
    auction.check_room(table)?;
    auction.check_without(without)?;
    auction.fill_each(table, without);
    Ok(())
}
