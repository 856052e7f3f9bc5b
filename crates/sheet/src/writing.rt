ghost use Rattle.std.specs.Prelude.{◌≡◌, ◌+◌, ◌*◌, ◌≤◌, ◌++◌, length, take, drop};
ghost use Rattle.wire.specs.Bytes.{spelled, placed};
ghost use Rattle.sheet.specs.Forms.{condition_numbers, row_numbers, rows_numbers, sheet_form};
ghost use Rattle.sheet.specs.Written.{written_end, written_bytes, WrittenBack};
ghost use Rattle.arrayvec.specs.ArrayVec.{array_vec_len};

use crate::reading::{head_outside, too_short};
use crate::row::{Condition, Head, Row};
use arrayvec::ArrayVec;
use fault::{BytesPlace, Fault};
use wire::{numbers_size, put_numbers};

// Appends numbers to a list that has room for them.
fn append(numbers: &mut ArrayVec<u32, 22>, more: &[u32])
    requires { array_vec_len numbers.old + length more.now ≤ 22 }
    ensures { numbers.new.items ≡ numbers.old.items ++ more.now }
{
    let _ = numbers.try_extend_from_slice(more);
}

// Appends the numbers of a condition: the count of its tests, and the tests.
fn append_condition(numbers: &mut ArrayVec<u32, 22>, condition: Condition)
    requires { array_vec_len numbers.old ≤ 9 }
    ensures { numbers.new.items ≡ numbers.old.items ++ condition_numbers condition }
{
    let tests = condition.tests();
    append(numbers, &[tests.len() as u32]);
    for test in tests.as_slice() {
        append(
            numbers,
            &[test.variable, u32::from(test.relation), test.word],
        );
    }
}

// The numbers that a row is written as: its kind, its fields, and those of its condition.
fn row_numbers(row: Row) -> ArrayVec<u32, 22>
    ensures { result.items ≡ row_numbers row }
{
    let mut numbers = ArrayVec::new();
    match row {
        Row::Keep(k) => append(&mut numbers, &[0, k.station, k.taken, k.given, k.first]),
        Row::Call(c) => {
            append(&mut numbers, &[1, c.station, c.work]);
            append(&mut numbers, c.inputs.numbers().as_slice());
            append(&mut numbers, &[c.output, c.date, c.duration]);
            append_condition(&mut numbers, c.condition);
        }
        Row::Send(s) => {
            append(
                &mut numbers,
                &[2, s.station, s.variable, s.listeners, s.date, s.duration],
            );
            append_condition(&mut numbers, s.condition);
        }
    }
    numbers
}

// How many bytes a row takes.
fn row_size(row: Row) -> u128
    ensures size { result ≡ length (spelled (row_numbers row)) }
    ensures few { result ≤ 110 }
{
    numbers_size(row_numbers(row).as_slice())
}

// Writes a row where there is room for it, and says where it ends.
fn put_row(out: &mut [u8], at: usize, row: Row) -> usize
    requires { at + length (spelled (row_numbers row)) ≤ length out.old }
    ensures end { result ≡ at + length (spelled (row_numbers row)) }
    ensures bytes { out.new ≡ take at out.old ++ (spelled (row_numbers row) ++ drop (at + length (spelled (row_numbers row))) out.old) }
{
    put_numbers(out, at, row_numbers(row).as_slice()).unwrap_or(at)
}

// How many bytes the rows take.
fn rows_size(rows: &[Row]) -> u128
    ensures size { result ≡ length (spelled (rows_numbers rows.now)) }
    ensures few { result ≤ 110 * length rows.now }
{
    let mut size: u128 = 0;
    for row in rows {
        size += row_size(*row);
    }
    size
}

// Writes rows where there is room for them, and says where they end. (Numbers are laid by such a loop too: one loop for both
// would take what it puts as a closure over the list, and its contract a relation of lists in place of these two equations.)
fn put_rows(out: &mut [u8], at: usize, rows: &[Row]) -> usize
    requires { at + length (spelled (rows_numbers rows.now)) ≤ length out.old }
    ensures end { result ≡ at + length (spelled (rows_numbers rows.now)) }
    ensures bytes { out.new ≡ take at out.old ++ (spelled (rows_numbers rows.now) ++ drop (at + length (spelled (rows_numbers rows.now))) out.old) }
{
    let mut next = at;
    for row in rows {
        next = put_row(out, next, *row);
    }
    next
}

// Writes a sheet to the front of `out`, whose rest stays, and says where it ends. A head that does not
// describe the rows, or too little room, is refused, and `out` is left as it was.
pub fn write(head: &Head, rows: &[Row], out: &mut [u8]) -> Result<usize, Fault<BytesPlace>>
    ensures end { result ≡ written_end head.now rows.now (length out.old) }
    ensures bytes { out.new ≡ written_bytes head.now rows.now out.old }
{
    if !head.within() || head.rows as usize != rows.len() {
        return Err(head_outside());
    }
    let front = [1, head.stations, head.variables, head.cycle, head.rows];
    let size = numbers_size(&front) + rows_size(rows);
    if (out.len() as u128) < size {
        return Err(too_short(size as u64));
    }
    let next = put_numbers(out, 0, &front).unwrap_or(0);
    Ok(put_rows(out, next, rows))
}

// Every sheet is written, given room, and read back equal.
pub fn writing_stands() -> u8
    ensures { WrittenBack }
{
    0
}
