// The life of a sale: it takes messages until it is closed.
ghost use Rattle.std.specs.Prelude.{◌≡◌};
ghost use Rattle.book.specs.Posting.{accounts_of};
ghost use Rattle.accounts.specs.Closing.{lent};
ghost use Rattle.sale.specs.Closing.{close_answer, close_sale, close_rows};
ghost use Rattle.sale.specs.Lives.{life_of, life_reply, life_next, life_answer, life_close, life_rows};
ghost use Rattle.sale.specs.States.{state_of};

use crate::refusals::ClosingRefusal;
use crate::stages::{ClosedSale, Life};
use crate::state::Sale;
use accounts::close;
use book::Answer;

impl Sale {
    // Closes the sale, and answers what the award is worth: the table, the award and the charges stand in the lent rows, each charge is taken
    // from its farm's account and added to the company's, and all sheets are emptied. What is refused changes nothing.
    // The rows are lent as slices of `u64`, by a rule of the project, and so not as a struct.
    pub fn close(
        self,
        table: &mut [u64],
        award: &mut [u64],
        charges: &mut [u64],
    ) -> (Life, Result<u64, ClosingRefusal>)
        ensures state { life_of result.0 ≡ close_sale (state_of self) (lent table.old award.old charges.old) }
        ensures answer { result.1 ≡ close_answer (state_of self) (lent table.old award.old charges.old) }
        ensures rows { lent table.new award.new charges.new ≡ close_rows (state_of self) (lent table.old award.old charges.old) }
    {
        let (book, answer) = close(self.book, &self.reserve, table, award, charges);
        // No `?`: the sale is handed back with either answer.
        match answer {
            Ok(settlement) => {
                let sale = ClosedSale {
                    book,
                    reserve: self.reserve,
                    company: self.company + settlement.income,
                };
                (Life::Closed(sale), Ok(settlement.worth))
            }
            Err(refusal) => (Life::Open(self), Err(ClosingRefusal::from(refusal))),
        }
    }
}

impl Life {
    // The sale after a message, and what is told of it; a closed sale takes none.
    pub fn post(self, bytes: &[u8]) -> (Life, Result<Answer, ClosingRefusal>)
        ensures state { life_of result.0 ≡ life_next (life_of self) bytes.now }
        ensures answer { result.1 ≡ life_reply (life_of self) bytes.now }
    {
        let Life::Open(sale) = self else {
            return (self, Err(ClosingRefusal::Closed(0)));
        };
        let (sale, answer) = sale.post(bytes);
        (Life::Open(sale), Ok(answer))
    }

    // Closes the sale as `Sale::close` does; a closed sale is not closed again. The rows are lent as there.
    pub fn close(
        self,
        table: &mut [u64],
        award: &mut [u64],
        charges: &mut [u64],
    ) -> (Life, Result<u64, ClosingRefusal>)
        ensures state { life_of result.0 ≡ life_close (life_of self) (lent table.old award.old charges.old) }
        ensures answer { result.1 ≡ life_answer (life_of self) (lent table.old award.old charges.old) }
        ensures rows { lent table.new award.new charges.new ≡ life_rows (life_of self) (lent table.old award.old charges.old) }
    {
        match self {
            Life::Open(sale) => sale.close(table, award, charges),
            Life::Closed(_) => (self, Err(ClosingRefusal::Closed(0))),
        }
    }

    // The accounts of the farms.
    pub fn accounts(&self) -> &[u64]
        ensures { result.now ≡ accounts_of (life_of self.now).state.entries }
    {
        match self {
            Life::Open(sale) => sale.book.accounts(),
            Life::Closed(sale) => sale.book.accounts(),
        }
    }

    // The company's account.
    pub fn company(&self) -> u64
        ensures { result ≡ (life_of self.now).state.company }
    {
        match self {
            Life::Open(sale) => sale.company,
            Life::Closed(sale) => sale.company,
        }
    }
}
