// What a book shows.
ghost use Rattle.std.specs.Prelude.{◌≡◌, map, length, nat_lt};
ghost use Rattle.bundle.specs.Stocks.{supply_of};
ghost use Rattle.sheets.specs.Sheets.{bids_of};
ghost use Rattle.book.specs.Books.{entries_of, book_supply, standing};
ghost use Rattle.book.specs.Posting.{accounts_of, bids_in};

use crate::state::Book;
use arrayvec::ArrayVec;
use bundle::Supply;
use sheets::Sheet;

// Whether a sheet has at least one line.
fn has_lines(sheet: &Sheet) -> bool
    ensures { result ≡ nat_lt 0 (length (bids_of sheet.now)) }
{
    !sheet.lines().is_empty()
}

impl Book {
    // How many farms have a sheet with at least one line.
    #[tactic(auto, using(crate::proofs::Entries::standing_by))]
    pub fn standing(&self) -> usize
        ensures { result ≡ standing (entries_of self.now) }
    {
        self.sheets()
            .iter()
            .filter(|sheet| has_lines(sheet))
            .count()
    }

    // What the sheets are checked against.
    pub fn supply(&self) -> Supply
        ensures { supply_of result ≡ book_supply self.now }
    {
        self.supply
    }

    // The accounts of the farms.
    #[tactic(auto, using(crate::proofs::Entries::accounts_book))]
    pub fn accounts(&self) -> &[u64]
        ensures { result.now ≡ accounts_of (entries_of self.now) }
    {
        &self.accounts[..self.farms]
    }

    // The accounts of the farms, by value. There is room for all of them, so the default is never taken.
    #[tactic(auto, using(crate::proofs::Entries::length_accounts))]
    pub fn account_array(&self) -> ArrayVec<u64, 48>
        ensures { result.items ≡ accounts_of (entries_of self.now) }
    {
        ArrayVec::try_from(self.accounts()).unwrap_or_default()
    }

    // The sheets of the farms.
    #[tactic(auto, using(crate::proofs::Entries::bids_book))]
    pub fn sheets(&self) -> &[Sheet]
        ensures { map bids_of result.now ≡ bids_in (entries_of self.now) }
    {
        &self.sheets[..self.farms]
    }
}
