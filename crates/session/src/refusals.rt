// Why a file is not run.
ghost use Rattle.std.specs.Prelude.{◌≡◌};
ghost use Rattle.session.specs.declared.refusals.RunRefusal.TheVariants.{Opening};

use sale::OpeningRefusal;

#[derive(Clone, Copy, PartialEq, Eq, Debug)]
pub enum RunRefusal {
    // Its opening is refused.
    Opening(OpeningRefusal),
    // There are so many messages, and the row for their answers is shorter.
    Room(usize),
}

impl From<OpeningRefusal> for RunRefusal {
    ghost from_gives = { λ e r. r ≡ Opening e };

    fn from(refusal: OpeningRefusal) -> RunRefusal {
        RunRefusal::Opening(refusal)
    }
}
