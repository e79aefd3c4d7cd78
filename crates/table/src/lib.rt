// The table of best worths: for each farm, and for each bundle, the most that the sheets from that farm on and the reserve make of it.
#![tactic(auto)]

mod auction;
mod filling;
mod offers;
mod refusals;
mod rows;
mod theorems;

pub use auction::Auction;
pub use filling::{fill, fill_with_marginals};
pub use refusals::TableRefusal;
pub use rows::row_below;
pub use theorems::{entries_are_all_stands, entries_are_most_stands};

// The most farms that a sale has.
pub const MAX_FARMS: usize = 48;
