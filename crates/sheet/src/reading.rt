ghost use Rattle.std.specs.Prelude.{◌≡◌, ◌≤◌, true, length, take, IfOk, OnErr};
ghost use Rattle.fault.specs.declared.refusal.Refusal.TheVariants.{TooShort, HeadOutside};
ghost use Rattle.fault.specs.declared.place.BytesPlace.TheVariants.{Needed, Head as of_head};
ghost use Rattle.sheet.specs.Rows.{head_within};
ghost use Rattle.sheet.specs.Parts.{shown};
ghost use Rattle.sheet.specs.Sheets.{head_from, row_from, rows_from, sheet_in, head_of, laid_rows};
ghost use Rattle.sheet.specs.Filled.{filled};
ghost use Rattle.sheet.specs.Theorems.{ReadExactly, OneSheetForm, OffsetsAlwaysTell};

use crate::borrowed::read_row;
use crate::parts::strange;
use crate::row::{Head, Row};
use fault::{BytesPlace, Fault, Offset, Refusal};
use wire::Reader;

// The edition and the head.
fn read_head(reader: &mut Reader) -> Result<Head, Fault<Offset>>
    ensures value { shown result reader.new.pos ≡ head_from reader.old.bytes.now reader.old.pos }
    ensures same { reader.new.bytes ≡ reader.old.bytes }
{
    let start = reader.pos();
    let edition = reader.number()?;
    if edition != 1 {
        return Err(strange(start));
    }
    let stations = reader.number()?;
    let variables = reader.number()?;
    let cycle = reader.number()?;
    let rows = reader.number()?;
    Ok(Head {
        stations,
        variables,
        cycle,
        rows,
    })
}

impl Head {
    // Whether the head is within its limits: 1 to 8 stations, 1 to 64 variables, 1 to 65,535 ticks in a
    // cycle, and at most 128 rows.
    pub fn within(&self) -> bool
        ensures { result ≡ head_within self.now }
    {
        let stations = 0 < self.stations && self.stations < 9;
        let variables = 0 < self.variables && self.variables < 65;
        let cycle = 0 < self.cycle && self.cycle < 65536;
        stations && variables && cycle && self.rows < 129
    }
}

// The next row, decoded.
fn read_whole_row(reader: &mut Reader) -> Result<Row, Fault<Offset>>
    ensures value { shown result reader.new.pos ≡ row_from reader.old.bytes.now reader.old.pos }
    ensures same { reader.new.bytes ≡ reader.old.bytes }
{
    read_row(reader)?.decode()
}

// Reads `count` rows into the front of `all`.
fn gather(reader: &mut Reader, count: usize, all: &mut [Row]) -> Result<(), Fault<Offset>>
    requires { count ≤ length all.old }
    ensures { filled result (take count all.new) reader.new.pos ≡ rows_from count reader.old.bytes.now reader.old.pos }
{
    for row in &mut all[..count] {
        *row = read_whole_row(reader)?;
    }
    Ok(())
}

// A list with too little room, by the count that is needed.
pub fn too_short(needed: u64) -> Fault<BytesPlace>
    ensures { result ≡ record { refusal = TooShort; place = Needed needed } }
{
    Fault {
        refusal: Refusal::TooShort,
        place: BytesPlace::Needed(needed),
    }
}

// A head outside its limits.
pub fn head_outside() -> Fault<BytesPlace>
    ensures { result ≡ record { refusal = HeadOutside; place = of_head } }
{
    Fault {
        refusal: Refusal::HeadOutside,
        place: BytesPlace::Head,
    }
}

// Reads a sheet: its rows into the front of `rows`, whose rest stays. A refusal leaves `rows` as it was.
pub fn read(bytes: &[u8], rows: &mut [Row]) -> Result<Head, Fault<BytesPlace>>
    ensures head { result ≡ head_of (sheet_in bytes.now (length rows.old)) }
    ensures list { rows.new ≡ laid_rows (sheet_in bytes.now (length rows.old)) rows.old }
    ensures within { IfOk result (λ h. h.rows ≤ length rows.old) }
    ensures limits { IfOk result (λ h. head_within h ≡ true) }
    ensures untouched { OnErr result (rows.new ≡ rows.old) }
{
    let mut reader = Reader::new(bytes);
    let head = read_head(&mut reader)?;
    let count = head.rows as usize;
    if rows.len() < count {
        return Err(too_short(u64::from(head.rows)));
    }
    if !head.within() {
        return Err(head_outside());
    }
    let mut all = [Row::default(); 128];
    gather(&mut reader, count, &mut all)?;
    let end = reader.pos();
    if end < bytes.len() {
        return Err(Fault {
            refusal: Refusal::Trailing,
            place: BytesPlace::Offset(end),
        });
    }
    rows[0..count].copy_from_slice(&all[0..count]);
    Ok(head)
}

// The theorems of a sheet in bytes: bytes read exactly when they are some sheet's form, a sheet has one
// form, and what the offset of a fault says of the bytes around it.
pub fn sheets_stand() -> u8
    ensures exact { ReadExactly }
    ensures one { OneSheetForm }
    ensures offsets { OffsetsAlwaysTell }
{
    0
}
