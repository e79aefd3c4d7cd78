// Why a message is refused, each with the place in the message where the fault lies.
#[derive(Clone, Copy, PartialEq, Eq, Debug)]
pub enum MessageRefusal {
    // Fewer than six bytes; the place is the length.
    Short(usize),
    // There is no such farm.
    NoFarm(usize),
    // The number is not above that of the farm's last message.
    OldNumber(usize),
    // More than 32 lines.
    ManyLines(usize),
    // Not the length that so many lines have; the place is the length.
    WrongLength(usize),
    // A line's worth is above the farm's account.
    WorthAboveAccount(usize),
    // A line's units of a lot are above the supply.
    UnitsAboveSupply(usize),
}
