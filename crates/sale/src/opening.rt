// Opens a sale. The checks stand in the order in which an opening is checked.
ghost use Rattle.std.specs.Prelude.{◌≡◌, ◌≤◌, [], ◌∷◌, length};
ghost use Rattle.bundle.specs.Checks.{viewed};
ghost use Rattle.book.specs.Books.{standing};
ghost use Rattle.sale.specs.States.{state_of, after, reply};
ghost use Rattle.sale.specs.Opening.{units_of_lots, prices_of_lots, overfull, open_sale};

use crate::lots::Lot;
use crate::refusals::OpeningRefusal;
use crate::state::Sale;
use arrayvec::ArrayVec;
use book::{Answer, Book};
use bundle::{Reserve, Supply};

const MAX_LOTS: usize = 12;

// Cents in the account of a farm, and in the company's.
const MAX_ACCOUNT: u64 = 1_000_000_000;

const MAX_COMPANY: u64 = 1_000_000_000_000_000;

// The units and the reserve of each of at most twelve lots.
// Two vectors, as `Supply::new` and `Reserve::new` take them.
fn columns(lots: &[Lot]) -> (ArrayVec<u8, 12>, ArrayVec<u32, 12>)
    requires { length lots.now ≤ 12 }
    ensures units { result.0.items ≡ units_of_lots lots.now }
    ensures prices { result.1.items ≡ prices_of_lots lots.now }
{
    let mut units = ArrayVec::new();
    let mut prices = ArrayVec::new();
    for lot in lots {
        units.push(lot.units);
        prices.push(lot.reserve);
    }
    (units, prices)
}

// The first farm whose account is above 1,000,000,000.
fn overfull_account(accounts: &[u64]) -> Option<usize>
    ensures { result ≡ overfull accounts.now }
{
    accounts.iter().position(|account| *account > MAX_ACCOUNT)
}

impl Sale {
    // The sale of these lots among farms with these accounts, or what is wrong first.
    pub fn open(lots: &[Lot], accounts: &[u64], company: u64) -> Result<Sale, OpeningRefusal>
        ensures { viewed state_of result ≡ open_sale lots.now accounts.now company }
    {
        if lots.len() > MAX_LOTS {
            return Err(OpeningRefusal::LotCount(0));
        }
        let (units, prices) = columns(lots);
        let supply = Supply::new(&units)?;
        let reserve = Reserve::new(&prices)?;
        let Some(book) = Book::open(supply, accounts) else {
            return Err(OpeningRefusal::FarmCount(0));
        };
        if let Some(farm) = overfull_account(accounts) {
            return Err(OpeningRefusal::Account(farm));
        }
        if company > MAX_COMPANY {
            return Err(OpeningRefusal::Company(0));
        }
        Ok(Sale {
            book,
            reserve,
            company,
        })
    }

    // The sale after a message, and what is told of it.
    pub fn post(mut self, bytes: &[u8]) -> (Sale, Answer)
        ensures state { state_of result.0 ≡ after (state_of self) (bytes.now ∷ []) }
        ensures answer { result.1 ≡ reply (state_of self) bytes.now }
    {
        let (book, answer) = self.book.post(bytes);
        self.book = book;
        (self, answer)
    }

    // How many farms have a sheet with at least one line.
    pub fn standing(&self) -> usize
        ensures { result ≡ standing (state_of self.now).entries }
    {
        self.book.standing()
    }
}
