// The lines of what is refused.
ghost use Rattle.std.specs.Prelude.{Some};
ghost use Rattle.report.specs.Lines.{answer_line, refusal, refused_lines};

use book::Answer;
use sheets::Refusal;
use std::fmt;

// The number and the place of a refusal, and the end of its line.
#[derive(Clone, Copy)]
pub(crate) struct Refused<R>(pub(crate) R);

impl<R: Refusal + Copy> fmt::Display for Refused<R> {
    ghost output = { λ r. Some (refusal (R.number_of r.0) (R.place_of r.0)) };

    fn fmt<W: fmt::Write>(&self, f: &mut fmt::Formatter<W>) -> fmt::Result {
        let number = self.0.number();
        let place = self.0.place();
        writeln!(f, "refused {number} at {place}")
    }
}

// The line of one message, by its number in the file; none where it is taken.
#[derive(Clone, Copy)]
pub struct AnswerLine {
    pub message: usize,
    pub answer: Answer,
}

impl fmt::Display for AnswerLine {
    ghost output = { λ l. Some (answer_line l.message l.answer) };

    fn fmt<W: fmt::Write>(&self, f: &mut fmt::Formatter<W>) -> fmt::Result {
        match self.answer {
            Ok(()) => Ok(()),
            Err(refusal) => {
                let message = self.message;
                let refused = Refused(refusal);
                write!(f, "message {message} {refused}")
            }
        }
    }
}

// The lines of the messages that are refused.
#[derive(Clone, Copy)]
pub struct Refusals<'a> {
    pub answers: &'a [Answer],
}

impl<'a> fmt::Display for Refusals<'a> {
    ghost output = { λ r. Some (refused_lines 0 r.answers.now) };

    fn fmt<W: fmt::Write>(&self, f: &mut fmt::Formatter<W>) -> fmt::Result {
        for (message, answer) in self.answers.iter().enumerate() {
            let line = AnswerLine {
                message,
                answer: *answer,
            };
            write!(f, "{line}")?;
        }
        Ok(())
    }
}
