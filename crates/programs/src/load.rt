ghost use Rattle.std.specs.Prelude.{◌≡◌, ◌+◌, ◌^◌, ◌<◌, replicate, slice_set};
ghost use Rattle.wire.specs.Numbers.{number_at, after_number};
ghost use Rattle.netcode.specs.Layouts.{program_count};
ghost use Rattle.programs.specs.Steps.{steps_from};
ghost use Rattle.programs.specs.Files.{one_program, some_programs};
ghost use Rattle.programs.specs.Stores.{left, storing, left_program, storing_program, left_programs, storing_programs};

use crate::decode::read_step;
use fault::{BytesPlace, Fault, Offset};
use netcode::{Step, program_count};
use sheet::too_short;
use wire::Reader;

// Puts a step in a place of the list, if it has that place.
fn put(list: &mut [Step], at: usize, step: Step)
    ensures { list.new ≡ slice_set list.old at step }
{
    if at < list.len() {
        list[at] = step;
    }
}

// Reads `count` steps, and puts them in the places of the list from `at` on, so far as it has them.
fn read_steps(
    reader: &mut Reader,
    count: u32,
    list: &mut [Step],
    at: usize,
) -> Result<(), Fault<Offset>>
    requires { at + count < 2 ^ 64 }
    ensures value { left result list.new reader.new.pos ≡ storing list.old at (steps_from count reader.old.bytes.now reader.old.pos) }
    ensures same { reader.new.bytes ≡ reader.old.bytes }
{
    // By place: the list may have fewer places than the file has steps, and then the others are read all the same.
    for place in at..at + count as usize {
        let step = read_step(reader)?;
        put(list, place, step);
    }
    Ok(())
}

// Reads a program, for a list of `room` steps of which `before` are taken; says its length, and stores its
// steps as far as the list has their places.
fn read_program(
    reader: &mut Reader,
    room: usize,
    before: usize,
    list: &mut [Step],
) -> Result<u32, Fault<BytesPlace>>
    requires { before < 2 ^ 63 }
    ensures value { left_program result list.new reader.new.pos ≡ storing_program list.old before (one_program (number_at reader.old.bytes.now) (after_number reader.old.bytes.now) room before reader.old.pos) }
    ensures same { reader.new.bytes ≡ reader.old.bytes }
{
    let count = reader.number()?;
    let needed = before as u64 + u64::from(count);
    if (room as u64) < needed {
        return Err(too_short(needed));
    }
    read_steps(reader, count, list, before)?;
    Ok(count)
}

// Reads the programs of the stations, and says their lengths; stores the steps as far as the list has
// their places.
pub(crate) fn read_programs(
    reader: &mut Reader,
    stations: u32,
    room: usize,
    list: &mut [Step],
) -> Result<[usize; 16], Fault<BytesPlace>>
    ensures value { left_programs result list.new reader.new.pos ≡ storing_programs (replicate 16 0) 0 list.old 0 (some_programs (number_at reader.old.bytes.now) (after_number reader.old.bytes.now) room (program_count stations) 0 reader.old.pos) }
    ensures same { reader.new.bytes ≡ reader.old.bytes }
{
    let mut lengths = [0; 16];
    let mut before: usize = 0;
    for length in &mut lengths[..program_count(stations)] {
        *length = read_program(reader, room, before, list)? as usize;
        before += *length;
    }
    Ok(lengths)
}
