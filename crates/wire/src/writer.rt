ghost use Rattle.std.specs.Prelude.{◌≡◌, ◌+◌, ◌%◌, ◌≤◌, ◌++◌, length, take, drop};
ghost use Rattle.wire.specs.Bytes.{ReadsBack, OneForm, SameBytes, WorkedNumbers, bytes_of, spelled, end_of, placed};

use arrayvec::ArrayVec;

// Numbers are read back as they were written with nothing left over, and each has one form.
pub fn numbers_stand() -> u8
    ensures back { ReadsBack }
    ensures one { OneForm }
    ensures same { SameBytes }
{
    0
}

// Worked numbers, computed from the definitions.
pub fn number_cases() -> u8
    ensures { WorkedNumbers }
{
    0
}

// The bytes of `n`: seven bits in each, the lowest first, and 128 more in those that others follow.
pub fn number_bytes(n: u32) -> ArrayVec<u8, 5>
    ensures { result.items ≡ bytes_of n }
{
    let mut bytes = ArrayVec::new();
    let mut rest = n;
    // The groups of a number end where it does: no list stands behind them.
    while rest >= 128 {
        bytes.push((rest % 128 + 128) as u8);
        rest /= 128;
    }
    bytes.push(rest as u8);
    bytes
}

// Writes `n` at `at`, and says where it ends. A list that is too short is left as it was, and the count of bytes is
// told. (The count is a number and no code: `Err(NoRoom { needed })` would say no more than the clause `end`.)
pub fn put_number(out: &mut [u8], at: usize, n: u32) -> Result<usize, usize>
    ensures end { result ≡ end_of (length out.old) at (bytes_of n) }
    ensures bytes { out.new ≡ placed out.old at (bytes_of n) }
{
    let bytes = number_bytes(n);
    if at > out.len() || out.len() - at < bytes.len() {
        return Err(bytes.len());
    }
    let end = at + bytes.len();
    out[at..end].copy_from_slice(bytes.as_slice());
    Ok(end)
}

// How many bytes the numbers take.
pub fn numbers_size(numbers: &[u32]) -> u128
    ensures { result ≡ length (spelled numbers.now) }
{
    let mut size: u128 = 0;
    for n in numbers {
        size += number_bytes(*n).len() as u128;
    }
    size
}

// Writes the numbers at `at`, one after the other, and says where they end. A list that is too short is
// left as it was, and the count of bytes that the numbers take is told.
pub fn put_numbers(out: &mut [u8], at: usize, numbers: &[u32]) -> Result<usize, u128>
    ensures end { result ≡ end_of (length out.old) at (spelled numbers.now) }
    ensures bytes { out.new ≡ placed out.old at (spelled numbers.now) }
{
    let size = numbers_size(numbers);
    if at > out.len() || ((out.len() - at) as u128) < size {
        return Err(size);
    }
    Ok(lay(out, at, numbers))
}

// Writes numbers where there is room for them.
fn lay(out: &mut [u8], at: usize, numbers: &[u32]) -> usize
    requires { at + length (spelled numbers.now) ≤ length out.old }
    ensures end { result ≡ at + length (spelled numbers.now) }
    ensures bytes { out.new ≡ take at out.old ++ (spelled numbers.now ++ drop (at + length (spelled numbers.now)) out.old) }
{
    let mut next = at;
    for n in numbers {
        next = put_number(out, next, *n).unwrap_or(next);
    }
    next
}
