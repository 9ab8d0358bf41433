// A refusal: the number of the question that was answered no, and its two places.
// Numbers, since this is what is printed and looked up: the cases stand in the enums that a refusal is made from.
#![tactic(auto)]

ghost use Rattle.std.specs.Prelude.{Some};
ghost use Rattle.refusal.specs.Text.{refusal_text};

use std::fmt;

#[derive(Clone, Copy, PartialEq, Eq, Debug)]
pub struct Refusal {
    pub number: u8,
    pub a: usize,
    pub b: usize,
}

impl fmt::Display for Refusal {
    ghost output = { λ r. Some (refusal_text r) };

    fn fmt<W: fmt::Write>(&self, f: &mut fmt::Formatter<W>) -> fmt::Result {
        let Refusal { number, a, b } = *self;
        write!(f, "{number} {a} {b}")
    }
}
