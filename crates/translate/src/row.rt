ghost use Rattle.std.specs.Prelude.{◌≡◌, ◌+◌, ◌^◌, ◌<◌, ◌≤◌, length};
ghost use Rattle.translate.specs.Translation.{date_of, end_of, tests_in};

use sheet::Row;

// The date of a call or a send.
pub fn date_of(row: Row) -> u32
    ensures { result ≡ date_of row }
{
    match row {
        Row::Keep(_) => 0,
        Row::Call(c) => c.date,
        Row::Send(s) => s.date,
    }
}

// The date at which it ends.
pub fn end_of(row: Row) -> u32
    requires { end_of row < 2 ^ 32 }
    ensures { result ≡ end_of row }
{
    match row {
        Row::Keep(_) => 0,
        Row::Call(c) => c.date + c.duration,
        Row::Send(s) => s.date + s.duration,
    }
}

// How many steps a row has in a block.
pub fn row_length(row: Row) -> usize
    ensures length { result ≡ length (tests_in row) + 3 }
    ensures few { result ≤ 7 }
{
    row.condition().tests().len() + 3
}
