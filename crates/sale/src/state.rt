// What a sale holds.
ghost use Rattle.std.specs.Prelude.{◌≤◌};

use book::Book;
use bundle::Reserve;

// The book with a place for each farm, the reserve of each lot, and the company's account, at most 10^15.
// Shown by a view and no `impl Model`, as the book in it is, and for the same reason: it is copied.
#[derive(Clone, Copy)]
pub struct Sale {
    pub(crate) book: Book,
    pub(crate) reserve: Reserve,
    pub(crate) company: u64,
    ghost bounded: { company ≤ 1000000000000000 },
}
