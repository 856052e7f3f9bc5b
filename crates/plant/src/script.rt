ghost use Rattle.std.specs.Prelude.{◌≡◌};
ghost use Rattle.plant.specs.Laws.{script_apart};
ghost use Rattle.plant.specs.Script.{script, script_read, map_ok, next_word, later_words, pair_at, after_pair, pair_here, pairs_end, unused_by, unused_from};
ghost use Rattle.std.specs.Iterator.{item_count};
ghost use Rattle.plant.specs.Pairs.{pairs_left, next_pair};
ghost use Rattle.plant.specs.ScriptForm.{ScriptBack, ScriptOneForm};

use crate::works::{Plant, Words};
use fault::{Fault, Offset, Refusal, WorkPlace};
use wire::Reader;

// Where a station reads on in a script, and how many pairs are left there.
#[derive(Clone, Copy)]
pub struct Cursor {
    pos: usize,
    left: u32,
}

// A plant that answers with the words of a list, which is read from bytes that are lent to it.
#[derive(Drop)]
pub struct Script<'a> {
    bytes: &'a [u8],
    from: [Cursor; 8],
}

// The next pair, a station and a word. A fault leaves the reader at its offset, which the numbers of a program file do not
// say of theirs.
fn read_pair(reader: &mut Reader) -> Result<(u32, u32), Fault<Offset>>
    ensures value { result ≡ pair_at reader.old.bytes.now reader.old.pos }
    ensures next { reader.new.pos ≡ after_pair reader.old.bytes.now reader.old.pos }
    ensures same { reader.new.bytes ≡ reader.old.bytes }
{
    let station = reader.number()?;
    let word = reader.number()?;
    Ok((station, word))
}

// The pair at `pos`, a station and a word, and the position after it, if it can be read.
fn pair_at(bytes: &[u8], pos: usize) -> Option<(u32, u32, usize)>
    ensures { result ≡ pair_here bytes.now pos }
{
    let mut reader = Reader::new(bytes.get(pos..)?);
    let (owner, word) = read_pair(&mut reader).ok()?;
    Some((owner, word, pos + reader.pos()))
}

// The pairs of a script from a cursor on, as far as they can be read.
#[derive(Drop)]
struct Pairs<'a> {
    bytes: &'a [u8],
    cursor: Cursor,
}

impl Iterator for Pairs<'_> {
    type Item = (u32, u32);

    ghost next_gives = { next_pair };

    ghost remaining = { item_count pairs_left };

    fn next(&mut self) -> Option<(u32, u32)> {
        let left = self.cursor.left.checked_sub(1)?;
        let (owner, word, pos) = pair_at(self.bytes, self.cursor.pos)?;
        self.cursor = Cursor { pos, left };
        Some((owner, word))
    }
}

// The next word that the list has for a station from a cursor on, or 0, and where the station reads on.
fn next_word(bytes: &[u8], station: u32, from: Cursor) -> (u32, Cursor)
    ensures word { result.0 ≡ next_word (unused_by bytes.now station from) }
    ensures later { unused_by bytes.now station result.1 ≡ later_words (unused_by bytes.now station from) }
{
    let mut pairs = Pairs {
        bytes,
        cursor: from,
    };
    let word = pairs
        .find(|(owner, _)| *owner == station)
        .map_or(0, |(_, word)| word);
    (word, pairs.cursor)
}

// Reads so many pairs, and says where they end.
fn pairs_end(reader: &mut Reader, count: u32) -> Result<usize, Fault<Offset>>
    ensures { result ≡ pairs_end count reader.old.bytes.now reader.old.pos }
{
    // As many pairs as the script says it has: `Pairs` stops silently where one cannot be read, and here that is refused.
    for _ in 0..count {
        read_pair(reader)?;
    }
    Ok(reader.pos())
}

// A script is read back as it was written, and has one byte form.
pub fn scripts_stand() -> u8
    ensures back { ScriptBack }
    ensures one { ScriptOneForm }
{
    0
}

impl<'a> Script<'a> {
    // The script whose count and pairs the bytes are. No word is used yet.
    pub fn read(bytes: &'a [u8]) -> Result<Script<'a>, Fault<Offset>>
        ensures { map_ok (λ s. unused_from s.bytes.now 0 s.from) result ≡ script_read bytes.now }
    {
        let mut reader = Reader::new(bytes);
        let count = reader.number()?;
        let start = reader.pos();
        let end = pairs_end(&mut reader, count)?;
        if end < bytes.len() {
            return Err(Fault {
                refusal: Refusal::Trailing,
                place: Offset(end),
            });
        }
        let cursor = Cursor {
            pos: start,
            left: count,
        };
        Ok(Script {
            bytes,
            from: [cursor; 8],
        })
    }
}

impl<'a> Plant for Script<'a> {
    ghost model = { script };

    ghost meaning = { λ p. unused_from p.bytes.now 0 p.from };

    ghost apart = { script_apart };

    fn knows(&self, station: u32, work: u32, count: u32) -> bool {
        station < 8 && matches!((work, count), (20, 0) | (1, 1))
    }

    fn perform(&mut self, station: u32, work: u32, inputs: Words) -> Result<u32, Fault<WorkPlace>> {
        self.admit(station, work, inputs)?;
        if work == 1 {
            return Ok(inputs.first());
        }
        let (word, cursor) = next_word(self.bytes, station, self.from[station as usize]);
        self.from[station as usize] = cursor;
        Ok(word)
    }
}
