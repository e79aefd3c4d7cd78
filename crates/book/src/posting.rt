// The book: opened, and changed by messages.
ghost use Rattle.std.specs.Prelude.{◌≡◌, ◌<◌, ◌≤◌, ◌||◌, map, length, take, IfOk, IfSome, if◌then◌else◌, Some, None, nat_eq, nat_lt};
ghost use Rattle.std.specs.Option.{option_map};
ghost use Rattle.bundle.specs.Checks.{viewed};
ghost use Rattle.sheets.specs.Sheets.{submission_of};
ghost use Rattle.book.specs.Books.{entries_of, book_supply};
ghost use Rattle.book.specs.Posting.{fresh, numbers_of, emptied, read_for, post, answer_of};

use crate::answers::Answer;
use crate::state::Book;
use bundle::Supply;
use sheets::{Message, MessageRefusal, Sheet, read};

// As in `table`, over which the book does not stand.
const MAX_FARMS: usize = 48;

// The accounts of at most 48 farms, and 0 past them.
// An array filled in front, for the reason that stands at `Book`. Not `bundle`'s `front`: what other crates can call asks nothing.
fn accounts_of(accounts: &[u64]) -> [u64; 48]
    requires { length accounts.now ≤ 48 }
    ensures { take (length accounts.now) result ≡ accounts.now }
{
    let mut all = [0u64; 48];
    all[..accounts.len()].copy_from_slice(accounts);
    all
}

impl Book {
    // A book with no message yet, for 1 to 48 farms; `None` for any other number of them.
    #[tactic(auto, using(crate::proofs::Entries::opened_places), unfolding(crate::specs::Books::entries_of))]
    pub fn open(supply: Supply, accounts: &[u64]) -> Option<Book>
        ensures places { option_map entries_of result ≡ (if nat_eq (length accounts.now) 0 || nat_lt 48 (length accounts.now) then None else Some (map fresh accounts.now)) }
        ensures terms { IfSome result (λ b. b.supply ≡ supply) }
    {
        let farms = accounts.len();
        if farms == 0 || farms > MAX_FARMS {
            return None;
        }
        Some(Book {
            supply,
            accounts: accounts_of(accounts),
            numbers: [0; 48],
            sheets: [Sheet::new(); 48],
            farms,
        })
    }

    // What a message says to this book.
    fn read_message(&self, bytes: &[u8]) -> Result<Message, MessageRefusal>
        ensures answer { viewed submission_of result ≡ read_for (book_supply self.now) (entries_of self.now) bytes.now }
        ensures known { IfOk result (λ m. m.farm < self.now.farms) }
    {
        let numbers = &self.numbers[..self.farms];
        read(bytes, &self.supply, self.accounts(), numbers)
    }

    // The book after a message, and what is told of it.
    // Answered in proofs/: with a lemma named here the search does not prove it (tried).
    pub fn post(mut self, bytes: &[u8]) -> (Book, Answer)
        ensures places { entries_of result.0 ≡ post (book_supply self) (entries_of self) bytes.now }
        ensures terms { result.0.supply ≡ self.supply }
        ensures answer { result.1 ≡ answer_of (read_for (book_supply self) (entries_of self) bytes.now) }
    {
        // No `?`: the book is handed back with either answer.
        match self.read_message(bytes) {
            Ok(message) => {
                let farm = usize::from(message.farm);
                self.numbers[farm] = message.number;
                self.sheets[farm] = message.sheet;
                (self, Ok(()))
            }
            Err(refusal) => (self, Err(refusal)),
        }
    }

    // The book with these accounts, under the same numbers and with no sheets; as it is where there is not one account for each farm.
    #[tactic(auto, using(crate::proofs::Entries::length_book))]
    pub fn emptied(mut self, accounts: &[u64]) -> Book
        ensures places { entries_of result ≡ (if nat_eq (length accounts.now) (length (entries_of self)) then emptied accounts.now (numbers_of (entries_of self)) else entries_of self) }
        ensures terms { result.supply ≡ self.supply }
    {
        if accounts.len() != self.farms {
            return self;
        }
        self.accounts = accounts_of(accounts);
        self.sheets = [Sheet::new(); 48];
        self
    }
}
