// The promises of the book.
ghost use Rattle.book.specs.Promises.{OrderFree, ToldOwn, PlaceOwn, StaysAllowed, AlwaysAllowed};

// The order in which messages come does not matter, where no farm sends two under one number.
#[tactic(auto, using(crate::proofs::Orders::order_free))]
pub fn order_free_stands()
    ensures { OrderFree }
{}

// What a farm is told depends on the terms, its own place with its account, and its own messages, and on nothing that others have or send.
#[tactic(auto, using(crate::proofs::Tells::told_own))]
pub fn told_own_stands()
    ensures { ToldOwn }
{}

// And so does what stands in its place.
#[tactic(auto, using(crate::proofs::Tells::place_own))]
pub fn place_own_stands()
    ensures { PlaceOwn }
{}

// Sheets that are allowed for their farms stay so, whatever comes in.
#[tactic(auto, using(crate::proofs::Allows::stays_allowed))]
pub fn stays_allowed_stands()
    ensures { StaysAllowed }
{}

// So every sheet is allowed for its farm, in a book that was opened with no message yet.
#[tactic(auto, using(crate::proofs::Allows::always_allowed))]
pub fn always_allowed_stands()
    ensures { AlwaysAllowed }
{}
