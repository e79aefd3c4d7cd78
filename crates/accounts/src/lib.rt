// The accounts: closing a sale.
#![tactic(auto)]

mod closing;
mod settlement;
mod theorems;

pub use closing::close;
pub use settlement::Settlement;
pub use theorems::true_message_is_best_stands;
