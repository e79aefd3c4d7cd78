// The number and the place of a refusal.
ghost use Rattle.sale.specs.Numbers.{opening_number, opening_place, closing_number, closing_place};

use crate::refusals::{ClosingRefusal, OpeningRefusal};
use sheets::Refusal;

impl Refusal for OpeningRefusal {
    ghost number_of = { opening_number };

    ghost place_of = { opening_place };

    fn number(self) -> u8 {
        match self {
            OpeningRefusal::LotCount(_) => 9,
            OpeningRefusal::Supply(_) => 10,
            OpeningRefusal::Price(_) => 11,
            OpeningRefusal::FarmCount(_) => 12,
            OpeningRefusal::Account(_) => 13,
            OpeningRefusal::Company(_) => 14,
        }
    }

    fn place(self) -> usize {
        match self {
            OpeningRefusal::LotCount(place)
            | OpeningRefusal::Supply(place)
            | OpeningRefusal::Price(place)
            | OpeningRefusal::FarmCount(place)
            | OpeningRefusal::Account(place)
            | OpeningRefusal::Company(place) => place,
        }
    }
}

impl Refusal for ClosingRefusal {
    ghost number_of = { closing_number };

    ghost place_of = { closing_place };

    fn number(self) -> u8 {
        match self {
            ClosingRefusal::Closed(_) => 1,
            ClosingRefusal::Row(_) => 15,
        }
    }

    fn place(self) -> usize {
        match self {
            ClosingRefusal::Closed(place) | ClosingRefusal::Row(place) => place,
        }
    }
}
