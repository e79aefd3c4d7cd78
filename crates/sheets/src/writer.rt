// Writes a message.
ghost use Rattle.std.specs.Prelude.{◌≡◌, length};
ghost use Rattle.std.specs.List.{flat_map};
ghost use Rattle.sheets.specs.Sheets.{bid_of, submission_of};
ghost use Rattle.sheets.specs.Writing.{line_bytes, message_bytes, written, written_size};

use crate::parts::{Line, Message};

// How many bytes the message takes.
fn size_of(message: &Message) -> usize
    ensures { result ≡ length (message_bytes (submission_of message.now)) }
{
    let lines = message.sheet.lines();
    6 + lines
        .iter()
        .map(|line| 4 + line.units.lots())
        .sum::<usize>()
}

// Writes a line over its row: its worth, then its units.
fn put_line(row: &mut [u8], line: &Line)
    requires { length row.old ≡ length (line_bytes (bid_of line.now)) }
    ensures { row.new ≡ line_bytes (bid_of line.now) }
{
    row[..4].copy_from_slice(&line.worth.to_le_bytes());
    row[4..].copy_from_slice(line.units.units());
}

// Writes lines over their rows, one behind the other.
fn put_lines(rows: &mut [u8], lines: &[Line])
    requires { length rows.old ≡ length (flat_map (λ l. line_bytes (bid_of l)) lines.now) }
    ensures { rows.new ≡ flat_map (λ l. line_bytes (bid_of l)) lines.now }
{
    let Some((line, others)) = lines.split_first() else {
        return;
    };
    let (row, rest) = rows.split_at_mut(4 + line.units.lots());
    put_line(row, line);
    put_lines(rest, others);
}

// Writes a message at the front of `out`, and says how many bytes it takes; where `out` is shorter, nothing is written.
// By places, as the format has them: the six bytes in front of the lines have a fixed place.
pub fn write(message: &Message, out: &mut [u8]) -> Option<usize>
    ensures value { result ≡ written_size (message_bytes (submission_of message.now)) out.old }
    ensures after { out.new ≡ written (message_bytes (submission_of message.now)) out.old }
{
    let size = size_of(message);
    if out.len() < size {
        return None;
    }
    let lines = message.sheet.lines();
    out[0] = message.farm;
    out[1..5].copy_from_slice(&message.number.to_le_bytes());
    out[5] = lines.len() as u8;
    put_lines(&mut out[6..size], lines);
    Some(size)
}
