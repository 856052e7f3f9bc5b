#![tactic(auto)]

ghost use Rattle.std.specs.Prelude.{◌≡◌, length};
ghost use Rattle.std.specs.Iterator.{at_most};
ghost use Rattle.cases.specs.Parts.{part_in, shown, GivesPart, GivesPair};

// The first part of stored cases, two bytes for its length and as many bytes, and what follows it; nothing where
// it is cut short.
pub fn next_part(cases: &[u8]) -> Option<(&[u8], &[u8])>
    ensures { shown result ≡ part_in cases.now }
{
    let [low, high, after @ ..] = cases else {
        return None;
    };
    let size = usize::from(u16::from_le_bytes([*low, *high]));
    if after.len() < size {
        return None;
    }
    Some(after.split_at(size))
}

// The parts of stored cases, one after the other, up to one that is cut short.
#[derive(Drop)]
pub struct Parts<'a>(pub &'a [u8]);

impl<'a> Iterator for Parts<'a> {
    type Item = &'a [u8];

    ghost next_gives = { λ s r t. GivesPart s.0.now r t.0.now };

    ghost remaining = { λ s. at_most (length s.0.now) };

    fn next(&mut self) -> Option<&'a [u8]> {
        let (part, rest) = next_part(self.0)?;
        self.0 = rest;
        Some(part)
    }
}

// The same two by two.
#[derive(Drop)]
pub struct Pairs<'a>(pub &'a [u8]);

impl<'a> Iterator for Pairs<'a> {
    type Item = (&'a [u8], &'a [u8]);

    ghost next_gives = { λ s r t. GivesPair s.0.now r t.0.now };

    ghost remaining = { λ s. at_most (length s.0.now) };

    fn next(&mut self) -> Option<(&'a [u8], &'a [u8])> {
        let (first, rest) = next_part(self.0)?;
        let (second, rest) = next_part(rest)?;
        self.0 = rest;
        Some((first, second))
    }
}
