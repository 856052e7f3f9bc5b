ghost use Rattle.std.specs.Prelude.{◌≡◌, ◌+◌, ◌-◌, ◌*◌, ◌^◌, ◌<◌, ◌≤◌, length, take, drop, IfOk};
ghost use Rattle.wire.specs.Numbers.{numeral, number_at, after_number};

use fault::{Fault, Offset, Refusal};

// The number that the bytes begin with, and how many bytes it takes, or why there is none. `left` groups may still
// follow the first, and `first` says that none came before.
fn groups(bytes: &[u8], left: u8, first: bool) -> Result<(u32, usize), Refusal>
    requires { left ≤ 4 }
    ensures value { result ≡ numeral left first bytes.now }
    ensures bound { IfOk result (λ p. (p.0 < 16 * 128 ^ left) × (p.1 ≤ length bytes.now)) }
{
    let [b, rest @ ..] = bytes else {
        return Err(Refusal::EndsEarly);
    };
    let b = *b;
    if b == 0 && first {
        return Ok((0, 1));
    }
    if b == 0 || (left == 0 && b > 15) {
        return Err(Refusal::NotShortest);
    }
    if b < 128 {
        return Ok((u32::from(b), 1));
    }
    let (high, count) = groups(rest, left - 1, false)?;
    Ok((u32::from(b - 128) + 128 * high, count + 1))
}

// Bytes that are read from the front, number by number. Whoever reads on says that the bytes stay the same (`same`, in each
// contract): that is said of a reader before and after a call, which no ghost field of one value can say.
#[derive(Drop)]
pub struct Reader<'a> {
    bytes: &'a [u8],
    pos: usize,
    ghost within: { pos ≤ length bytes.now },
}

impl<'a> Reader<'a> {
    // A reader at the first of the bytes.
    pub fn new(bytes: &'a [u8]) -> Reader<'a>
        ensures bytes { result.bytes.now ≡ bytes.now }
        ensures start { result.pos ≡ 0 }
    {
        Reader { bytes, pos: 0 }
    }

    // The offset of the next byte.
    pub fn pos(&self) -> usize
        ensures { result ≡ self.now.pos }
    {
        self.pos
    }

    // The bytes from the offset `from` up to the next byte; none where that lies behind.
    pub fn since(&self, from: usize) -> &'a [u8]
        ensures { result.now ≡ take (self.now.pos - from) (drop from self.now.bytes.now) }
    {
        self.bytes.get(from..self.pos).unwrap_or(&[])
    }

    // The next number. A fault names its offset and leaves the reader there.
    pub fn number(&mut self) -> Result<u32, Fault<Offset>>
        ensures value { result ≡ number_at self.old.bytes.now self.old.pos }
        ensures next { self.new.pos ≡ after_number self.old.bytes.now self.old.pos }
        ensures same { self.new.bytes ≡ self.old.bytes }
    {
        let place = Offset(self.pos);
        let (value, count) = groups(&self.bytes[self.pos..], 4, true).map_err(|refusal| Fault {
            refusal,
            place,
        })?;
        self.pos += count;
        Ok(value)
    }
}
