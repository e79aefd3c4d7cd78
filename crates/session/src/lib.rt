// A session over a sale's file: the opening, then the messages, each after two bytes of length, and then the close.
#![tactic(auto)]

mod closing;
mod ended;
mod frames;
mod header;
mod refusals;
mod running;
mod theorems;

pub use closing::run_to_close;
pub use ended::Session;
pub use header::farm_count;
pub use refusals::RunRefusal;
pub use running::{message_count, run};
pub use theorems::{file_back_stands, frames_back_stands, samples_close_stands};
