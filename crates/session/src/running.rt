// Runs a file.
ghost use Rattle.std.specs.Prelude.{◌≡◌, ◌≤◌, ◌++◌, length, drop};
ghost use Rattle.bundle.specs.Checks.{viewed};
ghost use Rattle.sale.specs.States.{state_of, after, replies};
ghost use Rattle.session.specs.Session.{messages_in, run_within, told_within};

use crate::frames::Messages;
use crate::header::open;
use crate::refusals::RunRefusal;
use book::Answer;
use sale::Sale;

// How many messages the file has.
pub fn message_count(file: &[u8]) -> usize
    ensures { result ≡ length (messages_in file.now) }
{
    Messages::of(file).count()
}

// The sale after the messages of the file; the answers stand at the front of the row.
fn post_all(mut sale: Sale, file: &[u8], row: &mut [Answer]) -> Sale
    requires { length (messages_in file.now) ≤ length row.old }
    ensures state { state_of result ≡ after (state_of sale) (messages_in file.now) }
    ensures told { row.new ≡ replies (state_of sale) (messages_in file.now) ++ drop (length (messages_in file.now)) row.old }
{
    // By place: behind a zip over `iter_mut` nothing is known of what was written (tried).
    for (k, message) in Messages::of(file).enumerate() {
        let (next, answer) = sale.post(message);
        sale = next;
        row[k] = answer;
    }
    sale
}

// Opens the sale of a file and takes its messages; what each is answered stands at the front of the row.
// Refused, with the row as it was, where the row is too short for the answers, or the opening is refused.
// The row of answers is the caller's, as a library takes no heap.
pub fn run(file: &[u8], row: &mut [Answer]) -> Result<Sale, RunRefusal>
    ensures value { viewed state_of result ≡ run_within (length row.old) file.now }
    ensures told { row.new ≡ told_within row.old file.now }
{
    let count = message_count(file);
    if row.len() < count {
        return Err(RunRefusal::Room(count));
    }
    let sale = open(file)?;
    Ok(post_all(sale, file, row))
}
