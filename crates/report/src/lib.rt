// The text that is printed of a sale: what each type writes stands with its `Display`.
#![tactic(auto)]

mod farms;
mod refusals;
mod reports;
mod sessions;

pub use farms::Farms;
pub use refusals::{AnswerLine, Refusals};
pub use reports::Report;
