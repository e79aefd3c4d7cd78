// Closes the sale of the sheets in a book.
ghost use Rattle.std.specs.Prelude.{◌≡◌, ◌*◌, ◌^◌, ◌<◌, ◌≤◌, length, is_ok, IfOk, if◌then◌else◌, sum};
ghost use Rattle.bundle.specs.Reserves.{prices_of};
ghost use Rattle.bundle.specs.Stocks.{bundles_of};
ghost use Rattle.bundle.specs.Units.{less, Within};
ghost use Rattle.vcg.specs.Optimum.{best_worth, outcome_of};
ghost use Rattle.table.specs.Tables.{auction_of};
ghost use Rattle.award.specs.Deciding.{decision};
ghost use Rattle.book.specs.Books.{entries_of, book_supply};
ghost use Rattle.accounts.specs.Closing.{auction_for, charges_for, lent, filled, settled, settlement, closing};

use crate::settlement::Settlement;
use award::{AwardRefusal, decide};
use book::Book;
use bundle::{Reserve, Supply};
use sheets::Sheet;

// Takes each charge from its account, and answers what they come to together.
// One place for each farm is asked, as at `settle`.
#[tactic(auto, using(bundle::proofs::Bundles::less_nil, crate::proofs::Payments::unpaid, crate::proofs::Payments::paid_more), unfolding(bundle::specs::Units::Within))]
fn pay(charges: &[u64], accounts: &mut [u64]) -> u64
    requires each { length accounts.old ≡ length charges.now }
    requires covered { Within charges.now accounts.old }
    requires small { sum charges.now < 2 ^ 64 }
    ensures paid { accounts.new ≡ less accounts.old charges.now }
    ensures income { result ≡ sum charges.now }
{
    // By place: behind a zip over `iter_mut` nothing is known of what was written (tried).
    for (farm, charge) in charges.iter().enumerate() {
        accounts[farm] -= *charge;
    }
    charges.iter().sum()
}

// Decides the sale of these sheets, and takes each charge from its farm's account; refused, with no change, as `decide` refuses.
// Rows with a place for each farm are plain slices, which have no invariant: that the accounts have one for each sheet is asked.
// The supply, the reserve and the sheets stand apart, as in `decide`: an `Auction` could only be had by a check that cannot fail here.
#[tactic(auto, using(crate::proofs::Payments::charges_small))]
fn settle(
    supply: &Supply,
    reserve: &Reserve,
    sheets: &[Sheet],
    table: &mut [u64],
    award: &mut [u64],
    charges: &mut [u64],
    accounts: &mut [u64],
) -> Result<Settlement, AwardRefusal>
    requires few { length sheets.now ≤ 48 }
    requires each { length accounts.old ≡ length sheets.now }
    requires covered { Within (outcome_of (auction_of supply.now reserve.now sheets.now)).charge accounts.old }
    ensures answer { result ≡ settlement (decision (length sheets.now) (bundles_of supply.now) (length table.old) (length award.old) (length charges.old) (best_worth (auction_of supply.now reserve.now sheets.now))) (sum (outcome_of (auction_of supply.now reserve.now sheets.now)).charge) }
    ensures small { IfOk result (λ s. s.income ≤ 48 * 2 ^ 32) }
    ensures rows { lent table.new award.new charges.new ≡ (if is_ok result then filled (auction_of supply.now reserve.now sheets.now) (lent table.old award.old charges.old) else lent table.old award.old charges.old) }
    ensures accounts { accounts.new ≡ (if is_ok result then less accounts.old (outcome_of (auction_of supply.now reserve.now sheets.now)).charge else accounts.old) }
{
    let worth = decide(supply, reserve, sheets, table, award, charges)?;
    let income = pay(charges, accounts);
    Ok(Settlement { worth, income })
}

// Closes the sale of the sheets in a book: fills the table, writes the award and the charges, takes each charge from its farm's account,
// and empties all sheets. Refused, with no change, where one of the lent rows has not the length it needs.
// The table, the award and the charges are lent as slices of `u64`, by a rule of the project, and so here and in `settle` not as a struct.
pub fn close(
    book: Book,
    reserve: &Reserve,
    table: &mut [u64],
    award: &mut [u64],
    charges: &mut [u64],
) -> (Book, Result<Settlement, AwardRefusal>)
    ensures answer { result.1 ≡ closing (book_supply book) (prices_of reserve.now) (entries_of book) (lent table.old award.old charges.old) }
    ensures small { IfOk result.1 (λ s. s.income ≤ 48 * 2 ^ 32) }
    ensures places { entries_of result.0 ≡ (if is_ok result.1 then settled (entries_of book) (charges_for (book_supply book) (prices_of reserve.now) (entries_of book)) else entries_of book) }
    ensures terms { result.0.supply ≡ book.supply }
    ensures rows { lent table.new award.new charges.new ≡ (if is_ok result.1 then filled (auction_for (book_supply book) (prices_of reserve.now) (entries_of book)) (lent table.old award.old charges.old) else lent table.old award.old charges.old) }
{
    let supply = book.supply();
    let sheets = book.sheets();
    let mut accounts = book.account_array();
    let row = accounts.as_mut_slice();
    // No `?`: the book is handed back with either answer.
    match settle(&supply, reserve, sheets, table, award, charges, row) {
        Ok(settlement) => (book.emptied(&accounts), Ok(settlement)),
        Err(refusal) => (book, Err(refusal)),
    }
}
