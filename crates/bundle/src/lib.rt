// Lots in units: bundles of them, the supply that is for sale, and the reserve below which it is not.
#![tactic(auto)]

mod arithmetic;
mod places;
mod prices;
mod pricing;
mod refusals;
mod stock;
mod theorems;
mod units;

pub use prices::Reserve;
pub use refusals::{ReserveRefusal, SupplyRefusal};
pub use stock::Supply;
pub use theorems::{
    next_place_stands, place_of_difference_stands, places_below_stands, places_met_once_stands,
    sold_exactly_stands,
};
pub use units::Bundle;
