// The messages of a file, each after two bytes of length, low byte first.
ghost use Rattle.std.specs.Prelude.{◌≡◌, [], ◌∷◌, MatchOption};
ghost use Rattle.std.specs.Iterator.{YieldsFirstRef, item_count};
ghost use Rattle.session.specs.Frames.{messages};
ghost use Rattle.session.specs.Session.{messages_in};

use crate::header::size_of_opening;

// The first message, and what follows it; of one that is cut short, the bytes that are there.
fn split_message(bytes: &[u8]) -> Option<(&[u8], &[u8])>
    ensures { MatchOption result (messages bytes.now ≡ []) (λ parts. messages bytes.now ≡ parts.0.now ∷ messages parts.1.now) }
{
    match bytes {
        [] => None,
        [_] => Some((&[], &[])),
        [low, high, rest @ ..] => {
            let length = usize::from(u16::from_le_bytes([*low, *high]));
            Some(rest.split_at(length.min(rest.len())))
        }
    }
}

// The messages in what is left of a file.
#[derive(Drop)]
pub(crate) struct Messages<'a>(&'a [u8]);

impl<'a> Messages<'a> {
    // Those that follow the opening.
    pub(crate) fn of(file: &'a [u8]) -> Messages<'a>
        ensures { messages result.0.now ≡ messages_in file.now }
    {
        Messages(file.get(size_of_opening(file)..).unwrap_or(&[]))
    }
}

impl<'a> Iterator for Messages<'a> {
    type Item = &'a [u8];

    ghost next_gives = { YieldsFirstRef (λ s. messages s.0.now) };

    ghost remaining = { item_count (λ s. messages s.0.now) };

    fn next(&mut self) -> Option<&'a [u8]> {
        let (message, rest) = split_message(self.0)?;
        self.0 = rest;
        Some(message)
    }
}
