// What farms are told and how sales end, in numbers.
use book::Answer;
use sale::ClosingRefusal;
use sheets::{MessageRefusal, Refusal};

// An answer that no message is given: one that is refused for fewer than six bytes does not have 99.
// It stands for a place that is not written, so that the whole row is compared alike; an `Option` would not do, since the row that is lent holds answers.
pub const UNTOLD: Answer = Err(MessageRefusal::Short(99));

// The number of a check that fails, and the place of the fault.
// In numbers, as the list of refusals has them, so that `number` and `place` are tried too.
pub type Fault = (u8, usize);

pub fn fault<R: Refusal + Copy>(refusal: R) -> Fault {
    (refusal.number(), refusal.place())
}

pub fn told(answer: Answer) -> Option<Fault> {
    answer.err().map(fault)
}

// The same of a sale that may be closed.
pub fn told_in_life(answer: Result<Answer, ClosingRefusal>) -> Option<Fault> {
    match answer {
        Ok(answer) => told(answer),
        Err(refusal) => Some(fault(refusal)),
    }
}

// Whether these are the answers, in numbers.
pub fn all_told(answers: &[Answer], wanted: &[Option<Fault>]) -> bool {
    answers
        .iter()
        .map(|answer| told(*answer))
        .eq(wanted.iter().copied())
}

// The worth of a close, or its refusal in numbers.
pub fn closed(answer: Result<u64, ClosingRefusal>) -> Result<u64, Fault> {
    answer.map_err(fault)
}
