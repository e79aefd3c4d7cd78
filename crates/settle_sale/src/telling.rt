// The text for a sale's file.
ghost use Rattle.std.specs.Prelude.{◌≡◌, length, IfOk, string_bytes};
ghost use Rattle.accounts.specs.Closing.{lent};
ghost use Rattle.session.specs.Session.{messages_in};
ghost use Rattle.report.specs.Printing.{rows_for};
ghost use Rattle.report.specs.Reports.{text_of, is_of_closed};
ghost use Rattle.settle_sale.specs.Telling.{Tells};

use book::Answer;
use report::Report;
use session::{RunRefusal, farm_count, message_count, run_to_close};
use std::alloc::{AllocError, Global};

// What is printed of a sale, and whether it is closed: a flag, since the text is printed in either case.
#[derive(Drop)]
pub struct Told {
    pub text: String,
    pub closed: bool,
}

// What is told by a report.
fn tell_report(heap: Global, report: &Report<'_>) -> Result<Told, AllocError>
    ensures { IfOk result (λ t. (string_bytes t.text ≡ text_of report.now) × (t.closed ≡ is_of_closed report.now)) }
{
    let text = report.to_string(heap)?;
    let closed = report.is_closed();
    Ok(Told { text, closed })
}

// Runs a file with these rows, and tells of it.
// The rows are slices of u64, and no struct of them: a close has to be lent them so.
fn tell_run(
    heap: Global,
    file: &[u8],
    answers: &mut [Answer],
    table: &mut [u64],
    award: &mut [u64],
    charges: &mut [u64],
) -> Result<Told, AllocError>
    requires { length answers.old ≡ length (messages_in file.now) }
    ensures { IfOk result (λ t. Tells (lent table.old award.old charges.old) file.now t) }
{
    match run_to_close(file, answers, table, award, charges) {
        Ok(session) => {
            let report = Report::of_session(&session, answers, award, charges);
            tell_report(heap, &report)
        }
        Err(RunRefusal::Opening(refusal)) => tell_report(heap, &Report::from(refusal)),
        // There is a place for the answer to each message.
        Err(RunRefusal::Room(_)) => unreachable!(),
    }
}

// Runs a file, with room for a table of so many entries, and tells of it.
pub fn tell(heap: Global, file: &[u8], room: usize) -> Result<Told, AllocError>
    ensures { IfOk result (λ t. Tells (rows_for room file.now) file.now t) }
{
    let mut answers = vec![in heap; Ok(()); message_count(file)]?;
    let mut table = vec![in heap; 0u64; room]?;
    let mut award = vec![in heap; 0u64; farm_count(file)]?;
    let mut charges = vec![in heap; 0u64; farm_count(file)]?;
    tell_run(
        heap,
        file,
        &mut answers,
        &mut table,
        &mut award,
        &mut charges,
    )
}
