// The book of a sale: one place for each farm, with its account, the number of its last taken message and the sheet of that message.
#![tactic(auto)]

mod answers;
mod posting;
mod state;
mod theorems;
mod views;

pub use answers::Answer;
pub use state::Book;
pub use theorems::{
    always_allowed_stands, order_free_stands, place_own_stands, stays_allowed_stands,
    told_own_stands,
};
