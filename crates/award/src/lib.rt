// Who gets what, and what each farm pays for it.
#![tactic(auto)]

mod charging;
mod choosing;
mod deciding;
mod refusals;
mod theorems;
mod turns;

pub use deciding::decide;
pub use refusals::AwardRefusal;
pub use theorems::{
    charge_covers_reserve_stands, sale_is_settled_stands, samples_come_out_stands,
    true_sheet_is_best_stands,
};
