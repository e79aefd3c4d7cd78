// What is told of a session over a file.
ghost use Rattle.std.specs.Prelude.{◌≡◌, false, is_ok};
ghost use Rattle.book.specs.Posting.{accounts_of};
ghost use Rattle.sale.specs.Lives.{life_of};
ghost use Rattle.report.specs.Lines.{not_opened_text, told_text};
ghost use Rattle.report.specs.Reports.{text_of, is_of_closed};

use crate::farms::Farms;
use crate::refusals::Refusals;
use crate::reports::Report;
use book::Answer;
use sale::OpeningRefusal;
use session::Session;

// The report of a sale that is not opened.
impl<'a> From<OpeningRefusal> for Report<'a> {
    ghost from_gives = { λ e r. (text_of r ≡ not_opened_text e) × (is_of_closed r ≡ false) };

    fn from(refusal: OpeningRefusal) -> Report<'a> {
        Report::NotOpened(refusal)
    }
}

impl<'a> Report<'a> {
    // The report of a session, with the rows that it left.
    pub fn of_session(
        session: &'a Session,
        answers: &'a [Answer],
        award: &'a [u64],
        charges: &'a [u64],
    ) -> Report<'a>
        ensures text { text_of result ≡ told_text session.now.closing answers.now award.now charges.now (accounts_of (life_of session.now.sale).state.entries) (life_of session.now.sale).state.company }
        ensures closed { is_of_closed result ≡ is_ok session.now.closing }
    {
        let refusals = Refusals { answers };
        match session.closing {
            Ok(worth) => Report::Closed {
                refusals,
                worth,
                farms: Farms {
                    award,
                    charges,
                    accounts: session.sale.accounts(),
                },
                company: session.sale.company(),
            },
            Err(refusal) => Report::NotClosed { refusals, refusal },
        }
    }

    // Whether the sale is closed.
    pub fn is_closed(&self) -> bool
        ensures { result ≡ is_of_closed self.now }
    {
        matches!(self, Report::Closed { .. })
    }
}
