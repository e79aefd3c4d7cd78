// Messages with sheets of bids: read from bytes, and written.
#![tactic(auto)]

mod build;
mod numbers;
mod parts;
mod reader;
mod refusals;
mod theorems;
mod writer;

pub use numbers::Refusal;
pub use parts::{Line, Message, Sheet};
pub use reader::read;
pub use refusals::MessageRefusal;
pub use theorems::read_exactly_stands;
pub use writer::write;
