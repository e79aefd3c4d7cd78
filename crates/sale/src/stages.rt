// A sale from its opening on.
use crate::state::Sale;
use book::Book;
use bundle::Reserve;

// What a sale holds once it is closed: no sheets, each account less its charge, and the company's account with all charges.
// A type of its own, since that account may then be above 10^15.
#[derive(Clone, Copy)]
pub struct ClosedSale {
    pub(crate) book: Book,
    pub(crate) reserve: Reserve,
    pub(crate) company: u64,
}

// A sale takes messages until it is closed.
// Shown by a view: an enum can have no model.
#[derive(Clone, Copy)]
pub enum Life {
    Open(Sale),
    Closed(ClosedSale),
}
