// Runs a file to the close.
ghost use Rattle.std.specs.Prelude.{◌≡◌, length};
ghost use Rattle.bundle.specs.Checks.{viewed};
ghost use Rattle.accounts.specs.Closing.{lent};
ghost use Rattle.session.specs.Closing.{ending_of, close_within, rows_within};
ghost use Rattle.session.specs.Promises.{TrueFileIsBest};
ghost use Rattle.session.specs.Session.{told_within};

use crate::ended::Session;
use crate::refusals::RunRefusal;
use crate::running::run;
use book::Answer;

// Opens the sale of a file, takes its messages and closes it; what each message is answered stands at the front of the row of answers, and the
// table, the award and the charges stand in the other rows. Refused, with all rows as they were, where the row of answers is too short, or the opening
// is refused; where only the close is refused, the table, the award and the charges are as they were.
// The rows are slices of u64, and no struct of them: a close has to be lent them so.
// Answered in proofs/: with a lemma named here the search does not prove it (tried).
pub fn run_to_close(
    file: &[u8],
    answers: &mut [Answer],
    table: &mut [u64],
    award: &mut [u64],
    charges: &mut [u64],
) -> Result<Session, RunRefusal>
    ensures value { viewed ending_of result ≡ close_within (length answers.old) file.now (lent table.old award.old charges.old) }
    ensures told { answers.new ≡ told_within answers.old file.now }
    ensures rows { lent table.new award.new charges.new ≡ rows_within (length answers.old) file.now (lent table.old award.old charges.old) }
    ensures truthful { TrueFileIsBest }
{
    let sale = run(file, answers)?;
    let (sale, closing) = sale.close(table, award, charges);
    Ok(Session { sale, closing })
}
