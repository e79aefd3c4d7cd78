// What is told of a sale.
ghost use Rattle.std.specs.Prelude.{Some};
ghost use Rattle.report.specs.Reports.{text_of};

use crate::farms::Farms;
use crate::refusals::{Refusals, Refused};
use sale::{ClosingRefusal, OpeningRefusal};
use std::fmt;

#[derive(Clone, Copy)]
pub enum Report<'a> {
    NotOpened(OpeningRefusal),
    NotClosed {
        refusals: Refusals<'a>,
        refusal: ClosingRefusal,
    },
    // The rows have an entry for each farm; the accounts are those after the close.
    Closed {
        refusals: Refusals<'a>,
        worth: u64,
        farms: Farms<'a>,
        company: u64,
    },
}

impl<'a> fmt::Display for Report<'a> {
    ghost output = { λ r. Some (text_of r) };

    fn fmt<W: fmt::Write>(&self, f: &mut fmt::Formatter<W>) -> fmt::Result {
        match *self {
            Report::NotOpened(refusal) => {
                let refused = Refused(refusal);
                write!(f, "sale {refused}")
            }
            Report::NotClosed { refusals, refusal } => {
                let refused = Refused(refusal);
                write!(f, "{refusals}sale {refused}")
            }
            Report::Closed {
                refusals,
                worth,
                farms,
                company,
            } => writeln!(f, "{refusals}worth {worth}\n{farms}company {company}"),
        }
    }
}
