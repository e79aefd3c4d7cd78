// What the book holds.
ghost use Rattle.std.specs.Prelude.{◌≡◌, ◌≤◌, length, take};
ghost use Rattle.bundle.specs.Stocks.{supply_of};
ghost use Rattle.book.specs.Places.{entries, AllAllowed};

use bundle::Supply;
use sheets::Sheet;

// The supply that sheets are checked against, and a place for each of at most 48 farms: the first `farms` of each array.
// Every sheet is allowed for its farm. Three arrays, and not one of places: reading and closing take the accounts, numbers and sheets as slices.
// Arrays with a count: a book is `Copy`, as the sale that holds it is, and no `ArrayVec` is.
// Each method that hands the book back says that the supply is as it was: a book goes by value.
// It is shown by views and has no `impl Model`: the model of a value that is copied has to give its fields back, and no view shows the places past the farms.
#[derive(Clone, Copy)]
pub struct Book {
    pub(crate) supply: Supply,
    pub(crate) accounts: [u64; 48],
    pub(crate) numbers: [u32; 48],
    pub(crate) sheets: [Sheet; 48],
    pub(crate) farms: usize,
    ghost few: { farms ≤ 48 },
    ghost accounts_long: { length accounts ≡ 48 },
    ghost numbers_long: { length numbers ≡ 48 },
    ghost sheets_long: { length sheets ≡ 48 },
    ghost allowed: { ∥ AllAllowed (supply_of supply) (take farms (entries accounts numbers sheets)) ∥₁ },
}
