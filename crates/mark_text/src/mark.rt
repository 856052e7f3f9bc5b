ghost use Rattle.std.specs.Prelude.{Some};
ghost use Rattle.mark_text.specs.Marks.{word_text, mark_text, mark_line};

use semantics::Mark;
use std::fmt;

// A word, or a dash where there is none.
#[derive(Clone, Copy)]
pub struct WordText(pub Option<u32>);

impl fmt::Display for WordText {
    ghost output = { λ x. Some (word_text x.0) };

    fn fmt<W: fmt::Write>(&self, f: &mut fmt::Formatter<W>) -> fmt::Result {
        match self.0 {
            None => write!(f, "-"),
            Some(word) => write!(f, "{word}"),
        }
    }
}

// A mark.
#[derive(Clone, Copy)]
pub struct MarkText(pub Mark);

impl fmt::Display for MarkText {
    ghost output = { λ x. Some (mark_text x.0) };

    fn fmt<W: fmt::Write>(&self, f: &mut fmt::Formatter<W>) -> fmt::Result {
        let count = self.0.count;
        let tick = self.0.tick;
        let first = WordText(self.0.first);
        let second = WordText(self.0.second);
        let given = WordText(self.0.given);
        write!(f, "{count} {tick} {first} {second} {given}")
    }
}

// The line of a row's mark.
#[derive(Clone, Copy)]
pub struct MarkLine {
    pub row: usize,
    pub mark: Mark,
}

impl fmt::Display for MarkLine {
    ghost output = { λ x. Some (mark_line x.row x.mark) };

    fn fmt<W: fmt::Write>(&self, f: &mut fmt::Formatter<W>) -> fmt::Result {
        let row = self.row;
        let mark = MarkText(self.mark);
        write!(f, "{row} {mark}")
    }
}
