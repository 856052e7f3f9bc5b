ghost use Rattle.std.specs.Prelude.{◌≡◌, length};
ghost use Rattle.programs.specs.Files.{file_in, layout_in, laid_steps};
ghost use Rattle.programs.specs.Stores.{left_file, storing_file};

use crate::load::read_programs;
use fault::{BytesPlace, Fault, Refusal};
use netcode::{Layout, Step};
use sheet::{head_outside, strange};
use wire::Reader;

// Reads a file for a list of `room` steps, and stores the steps as far as the list has their places.
fn read_file(bytes: &[u8], room: usize, list: &mut [Step]) -> Result<Layout, Fault<BytesPlace>>
    ensures { left_file result list.new ≡ storing_file list.old (file_in bytes.now room) }
{
    let mut reader = Reader::new(bytes);
    if reader.number()? != 1 {
        return Err(strange(0).into());
    }
    let stations = reader.number()?;
    if !(0 < stations && stations < 9) {
        return Err(head_outside());
    }
    let lengths = read_programs(&mut reader, stations, room, list)?;
    let end = reader.pos();
    if end < bytes.len() {
        return Err(Fault {
            refusal: Refusal::Trailing,
            place: BytesPlace::Offset(end),
        });
    }
    Ok(Layout { stations, lengths })
}

// Reads the file that the bytes hold: its steps into the front of the list, one program after the other, and
// how they are cut. A refusal leaves the list as it was, and else the rest of it stays.
// The bytes are read twice: first into no list, to see that they can be read.
pub fn read(bytes: &[u8], steps: &mut [Step]) -> Result<Layout, Fault<BytesPlace>>
    ensures layout { result ≡ layout_in (file_in bytes.now (length steps.old)) }
    ensures list { steps.new ≡ laid_steps (file_in bytes.now (length steps.old)) steps.old }
{
    let room = steps.len();
    read_file(bytes, room, &mut [])?;
    read_file(bytes, room, steps)
}
