ghost use Rattle.std.specs.Prelude.{◌≡◌, ◌<◌, ◌≤◌, true, false, length, drop, IfOk, Some, None, Ok, Err, vec_len, MatchResult, slice_set};
ghost use Rattle.sheet.specs.Rows.{head_within};
ghost use Rattle.sheet.specs.Sheets.{sheet_in};
ghost use Rattle.sheet.specs.Written.{describes, written_end, written_bytes};
ghost use Rattle.judge.specs.Rules.{Rules};
ghost use Rattle.judge.specs.Verdict.{verdict};
ghost use Rattle.stages.specs.Sheets.{rows_in, draft_fault, fault_found, outside};

use fault::{BytesPlace, Fault, Refusal, RowPlace};
use judge::judge;
use sheet::{Head, Row, head_outside, too_short};

// A sheet that may be changed. Its list of rows was handed in, and `close` hands it back.
#[derive(Drop)]
pub struct Draft {
    head: Head,
    rows: Vec<Row>,
    ghost limits: { head_within head ≡ true },
    ghost room: { head.rows ≤ vec_len rows },
}

// A sheet that the judge finds nothing in.
#[derive(Drop)]
pub struct Accepted {
    draft: Draft,
    ghost kept: { fault_found draft.head draft.rows.items ≡ false },
}

// Reads a sheet into a list, which keeps its length, and which a refusal leaves as it was.
fn read_into(bytes: &[u8], rows: &mut Vec<Row>) -> Result<Head, Fault<BytesPlace>>
    ensures sheet { MatchResult result
        (λ h. (sheet_in bytes.now (vec_len rows.old) ≡ Ok (h, rows_in h rows.new.items)) × (drop h.rows rows.new.items ≡ drop h.rows rows.old.items))
        (λ f. (sheet_in bytes.now (vec_len rows.old) ≡ Err f) × (rows.new.items ≡ rows.old.items)) }
    ensures within { IfOk result (λ h. h.rows ≤ vec_len rows.new) }
    ensures limits { IfOk result (λ h. head_within h ≡ true) }
{
    sheet::read(bytes, rows.as_mut_slice())
}

impl Draft {
    ghost use Rattle.stages.specs.Views.{draft_head, draft_rows, accepted_draft};

    // A sheet with this head whose rows stand at the front of the list; the list comes back with a refusal.
    pub fn of(head: Head, rows: Vec<Row>) -> Result<Draft, (Vec<Row>, Fault<BytesPlace>)>
        ensures { MatchResult result (λ d. (draft_fault head (vec_len rows) ≡ None) × (d.head ≡ head) × (d.rows ≡ rows))
            (λ e. (draft_fault head (vec_len rows) ≡ Some e.1) × (e.0 ≡ rows)) }
    {
        if rows.len() < head.rows as usize {
            return Err((rows, too_short(u64::from(head.rows))));
        }
        if !head.within() {
            return Err((rows, head_outside()));
        }
        Ok(Draft { head, rows })
    }

    // Reads a sheet into the list. What the list holds beyond the sheet's rows stays, and with a refusal the
    // list comes back as it was.
    pub fn read(bytes: &[u8], mut rows: Vec<Row>) -> Result<Draft, (Vec<Row>, Fault<BytesPlace>)>
        ensures { MatchResult result
            (λ d. (sheet_in bytes.now (vec_len rows) ≡ Ok (draft_head d, draft_rows d)) × (drop d.head.rows d.rows.items ≡ drop d.head.rows rows.items))
            (λ e. (sheet_in bytes.now (vec_len rows) ≡ Err e.1) × (e.0.items ≡ rows.items)) }
    {
        match read_into(bytes, &mut rows) {
            Ok(head) => Ok(Draft { head, rows }),
            Err(fault) => Err((rows, fault)),
        }
    }

    pub fn head(&self) -> Head
        ensures { result ≡ draft_head self.now }
    {
        self.head
    }

    // The rows at the front of the list, which the head describes. Where the judge finds nothing in them,
    // they keep the rules.
    fn front(&self) -> &[Row]
        ensures same { result.now ≡ draft_rows self.now }
        ensures kept { fault_found self.now.head self.now.rows.items ≡ false → Rules (draft_head self.now) result.now }
        ensures described { describes (draft_head self.now) result.now ≡ true }
    {
        &self.rows.as_slice()[..self.head.rows as usize]
    }

    // The rows of the sheet, which its head describes.
    pub fn rows(&self) -> &[Row]
        ensures same { result.now ≡ draft_rows self.now }
        ensures described { describes (draft_head self.now) result.now ≡ true }
    {
        self.front()
    }

    // Writes the sheet to the front of `out`, whose rest stays, and says where it ends. Since the head
    // describes the rows, only too little room is refused, and then `out` is left as it was.
    pub fn write(&self, out: &mut [u8]) -> Result<usize, Fault<BytesPlace>>
        ensures end { result ≡ written_end (draft_head self.now) (draft_rows self.now) (length out.old) }
        ensures bytes { out.new ≡ written_bytes (draft_head self.now) (draft_rows self.now) out.old }
        ensures described { describes (draft_head self.now) (draft_rows self.now) ≡ true }
    {
        sheet::write(&self.head, self.rows(), out)
    }

    // Puts a row in the place of the one at `n`. Outside the sheet it is refused, and the draft stays as it is.
    pub fn put(&mut self, n: usize, row: Row) -> Result<(), Fault<RowPlace>>
        ensures { MatchResult result
            (λ _. (n < self.old.head.rows) × (self.new.head ≡ self.old.head)
            × (self.new.rows.items ≡ slice_set self.old.rows.items n row))
            (λ e. (self.old.head.rows ≤ n) × (e ≡ outside n) × (self.new ≡ self.old)) }
    {
        if n >= self.head.rows as usize {
            return Err(Fault {
                refusal: Refusal::Outside,
                place: RowPlace::Row(n),
            });
        }
        self.rows[n] = row;
        Ok(())
    }

    // Hands the list back.
    pub fn close(self) -> Vec<Row>
        ensures { result ≡ self.rows }
    {
        self.rows
    }

    // Accepts the sheet, or gives the draft back with what the judge found.
    pub fn accept(self) -> Result<Accepted, (Draft, Fault<RowPlace>)>
        ensures { MatchResult result (λ a. (verdict (draft_head self) (draft_rows self) ≡ None) × (accepted_draft a ≡ self))
            (λ e. (verdict (draft_head self) (draft_rows self) ≡ Some e.1) × (e.0 ≡ self)) }
    {
        match judge(&self.head, self.rows()) {
            Some(fault) => Err((self, fault)),
            None => Ok(Accepted { draft: self }),
        }
    }
}

impl Accepted {
    ghost use Rattle.stages.specs.Views.{accepted_head, accepted_rows, accepted_draft};

    pub fn head(&self) -> Head
        ensures { result ≡ accepted_head self.now }
    {
        self.draft.head()
    }

    // The rows of the sheet, which keep the rules.
    pub fn rows(&self) -> &[Row]
        ensures same { result.now ≡ accepted_rows self.now }
        ensures kept { Rules (accepted_head self.now) result.now }
    {
        self.draft.front()
    }

    // Makes the sheet a draft again.
    pub fn reopen(self) -> Draft
        ensures { result ≡ accepted_draft self }
    {
        self.draft
    }
}
