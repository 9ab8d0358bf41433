// What is said of a plan: that it would be shelved, with the count of its rows, or why it is refused.
ghost use Rattle.std.specs.Prelude.{Some};
ghost use Rattle.verdict.specs.Text.{verdict_text};

use refusal::Refusal;
use std::fmt;

// No Result: a refusal is a verdict as good as the other, and each is a line that is printed.
#[derive(Clone, Copy)]
pub enum Verdict {
    Shelved(usize),
    Refused(Refusal),
}

impl fmt::Display for Verdict {
    ghost output = { λ v. Some (verdict_text v) };

    fn fmt<W: fmt::Write>(&self, f: &mut fmt::Formatter<W>) -> fmt::Result {
        match self {
            Verdict::Shelved(rows) => write!(f, "shelved {rows}"),
            Verdict::Refused(refusal) => write!(f, "refused {refusal}"),
        }
    }
}
