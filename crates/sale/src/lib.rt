// A sale: opened with its lots, reserves and accounts, changed by messages, and closed.
#![tactic(auto)]

mod conversions;
mod life;
mod lots;
mod numbers;
mod opening;
mod refusals;
mod stages;
mod state;
mod theorems;

pub use lots::Lot;
pub use refusals::{ClosingRefusal, OpeningRefusal};
pub use stages::{ClosedSale, Life};
pub use state::Sale;
pub use theorems::{
    charges_are_fair_stands, closed_by_rule_stands, each_pays_stands, money_kept_stands,
    never_below_zero_stands, opens_exactly_stands, order_free_stands, told_own_stands,
};
