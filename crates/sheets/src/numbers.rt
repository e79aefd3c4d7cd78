// The number and the place of a refusal.
ghost use Rattle.std.specs.Prelude.{◌≡◌, ℕ};
ghost use Rattle.sheets.specs.Numbers.{message_number, message_place};

use crate::refusals::MessageRefusal;

// A refusal by the list of checks: the number of the check that failed, and the place of the fault.
pub trait Refusal {
    ghost number_of: { Self → ℕ };

    ghost place_of: { Self → ℕ };

    fn number(self) -> u8
        ensures { result ≡ number_of self };

    fn place(self) -> usize
        ensures { result ≡ place_of self };
}

impl Refusal for MessageRefusal {
    ghost number_of = { message_number };

    ghost place_of = { message_place };

    fn number(self) -> u8 {
        match self {
            MessageRefusal::Short(_) => 2,
            MessageRefusal::NoFarm(_) => 3,
            MessageRefusal::OldNumber(_) => 4,
            MessageRefusal::ManyLines(_) => 5,
            MessageRefusal::WrongLength(_) => 6,
            MessageRefusal::WorthAboveAccount(_) => 7,
            MessageRefusal::UnitsAboveSupply(_) => 8,
        }
    }

    fn place(self) -> usize {
        match self {
            MessageRefusal::Short(place)
            | MessageRefusal::NoFarm(place)
            | MessageRefusal::OldNumber(place)
            | MessageRefusal::ManyLines(place)
            | MessageRefusal::WrongLength(place)
            | MessageRefusal::WorthAboveAccount(place)
            | MessageRefusal::UnitsAboveSupply(place) => place,
        }
    }
}
