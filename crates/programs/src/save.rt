ghost use Rattle.std.specs.Prelude.{◌≡◌, ◌+◌, ◌*◌, ◌^◌, ◌<◌, ◌≤◌, true, length, take};
ghost use Rattle.std.specs.List.{flat_map};
ghost use Rattle.netcode.specs.Layouts.{program_count, programs_of};
ghost use Rattle.programs.specs.Files.{all_words, layout_within, program_numbers, file_numbers, file_of, end_of_file, written_file};
ghost use Rattle.programs.specs.Stores.{putting};

use crate::encode::{put_one, put_program};
use fault::{BytesPlace, Fault};
use netcode::{Layout, Step, program_count};
use sheet::{head_outside, too_short};

// Whether the lengths of a layout's programs are numbers of 32 bits.
fn lengths_within(layout: &Layout) -> bool
    ensures { result ≡ all_words (take (program_count layout.now.stations) layout.now.lengths) }
{
    layout.lengths[..program_count(layout.stations)]
        .iter()
        .all(|length| *length < 4294967296)
}

// Whether a file can have the layout: 1 to 8 stations, and lengths of 32 bits.
fn layout_within(layout: &Layout) -> bool
    ensures { result ≡ layout_within layout.now }
{
    0 < layout.stations && layout.stations < 9 && lengths_within(layout)
}

// Writes the programs from `at` on, and says where they end. (A layout and its steps stay two arguments, here and below, as
// `write` takes them: one value of both would be taken apart again by `programs`.)
fn put_programs(out: &mut [u8], at: usize, layout: &Layout, steps: &[Step]) -> usize
    requires { (all_words (take (program_count layout.now.stations) layout.now.lengths) ≡ true) × (at ≤ 10) }
    ensures put { putting out.old at (flat_map program_numbers (programs_of layout.now steps.now)) ≡ (out.new, result) }
{
    let mut end = at;
    for program in layout.programs(steps) {
        end = put_program(out, end, program);
    }
    end
}

// Writes a file, each number where there is room for it, and says where it ends.
fn put_file(out: &mut [u8], layout: &Layout, steps: &[Step]) -> usize
    requires { all_words (take (program_count layout.now.stations) layout.now.lengths) ≡ true }
    ensures put { putting out.old 0 (file_numbers (file_of layout.now steps.now)) ≡ (out.new, result) }
{
    let edition = put_one(out, 0, 1);
    let head = put_one(out, edition, layout.stations);
    put_programs(out, head, layout, steps)
}

// Writes the file of the programs that the layout cuts off from the list of steps into the front of `out`,
// and says how many bytes it has. A layout that no file can have is refused for its head. A refusal leaves
// `out` as it was, and else the rest of it stays.
// The file is written twice: first into no list, to see how many bytes it has.
pub fn write(layout: &Layout, steps: &[Step], out: &mut [u8]) -> Result<usize, Fault<BytesPlace>>
    ensures end { result ≡ end_of_file layout.now steps.now (length out.old) }
    ensures bytes { out.new ≡ written_file layout.now steps.now out.old }
{
    if !layout_within(layout) {
        return Err(head_outside());
    }
    let needed = put_file(&mut [], layout, steps);
    if out.len() < needed {
        return Err(too_short(needed as u64));
    }
    Ok(put_file(out, layout, steps))
}
