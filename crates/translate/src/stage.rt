ghost use Rattle.std.specs.Prelude.{◌≡◌, ◌<◌, ◌≤◌, length, if◌then◌else◌, Ok, Err, vec_len, MatchResult, nat_lt};
ghost use Rattle.stages.specs.Views.{accepted_draft, accepted_head, accepted_rows};
ghost use Rattle.translate.specs.Stores.{steps_of, laid_on, needed, layout_for, no_room, Bounded};
ghost use Rattle.translate.specs.Translation.{translated};

use crate::fill::{all_lengths, put_programs};
use fault::{BytesPlace, Fault};
use netcode::{Layout, Step};
use sheet::{Head, Row, too_short};
use stages::{Accepted, Draft};

// The programs of a sheet, which was used up for them. They stand at the front of a list of steps that was
// handed in, and that `close` hands back.
#[derive(Drop)]
pub struct Translated {
    sheet: Accepted,
    layout: Layout,
    steps: Vec<Step>,
}

// Lays the programs of a sheet in front of the list. Too little room is refused, and the list stays as it is.
fn lay(head: Head, rows: &[Row], steps: &mut [Step]) -> Result<Layout, Fault<BytesPlace>>
    requires { Bounded head.cycle rows.now }
    ensures layout { result ≡ (if nat_lt (length steps.old) (needed head rows.now) then Err (no_room head rows.now) else Ok (layout_for head rows.now)) }
    ensures list { steps.new ≡ (if nat_lt (length steps.old) (needed head rows.now) then steps.old else laid_on (steps_of (translated head rows.now)) steps.old) }
{
    let count = all_lengths(head, rows);
    if steps.len() < count {
        return Err(too_short(count as u64));
    }
    let lengths = put_programs(head, rows, steps);
    Ok(Layout {
        stations: head.stations,
        lengths,
    })
}

// The same in front of a list that can grow, which keeps its length.
fn lay_in(sheet: &Accepted, steps: &mut Vec<Step>) -> Result<Layout, Fault<BytesPlace>>
    ensures { MatchResult result
        (λ l. (needed (accepted_head sheet.now) (accepted_rows sheet.now) ≤ vec_len steps.old)
        × (l ≡ layout_for (accepted_head sheet.now) (accepted_rows sheet.now))
        × (steps.new.items ≡ laid_on (steps_of (translated (accepted_head sheet.now) (accepted_rows sheet.now))) steps.old.items))
        (λ f. (vec_len steps.old < needed (accepted_head sheet.now) (accepted_rows sheet.now))
        × (f ≡ no_room (accepted_head sheet.now) (accepted_rows sheet.now))
        × (steps.new.items ≡ steps.old.items)) }
{
    lay(sheet.head(), sheet.rows(), steps.as_mut_slice())
}

// Translates a sheet, which is used up; its programs stand at the front of the list, whose rest stays. Where
// the list is too short, the sheet comes back, still accepted, with the list as it was.
pub fn translate(
    sheet: Accepted,
    mut steps: Vec<Step>,
) -> Result<Translated, (Accepted, Vec<Step>, Fault<BytesPlace>)>
    ensures { MatchResult result
        (λ t. (needed (accepted_head sheet) (accepted_rows sheet) ≤ vec_len steps) × (t.sheet ≡ sheet) × (t.layout ≡ layout_for (accepted_head sheet) (accepted_rows sheet))
        × (t.steps.items ≡ laid_on (steps_of (translated (accepted_head sheet) (accepted_rows sheet))) steps.items))
        (λ e. (vec_len steps < needed (accepted_head sheet) (accepted_rows sheet)) × (e.0 ≡ sheet) × (e.1.items ≡ steps.items)
        × (e.2 ≡ no_room (accepted_head sheet) (accepted_rows sheet))) }
{
    match lay_in(&sheet, &mut steps) {
        Ok(layout) => Ok(Translated {
            sheet,
            layout,
            steps,
        }),
        Err(fault) => Err((sheet, steps, fault)),
    }
}

impl Translated {
    // The sheet's head.
    pub fn head(&self) -> Head
        ensures { result ≡ accepted_head self.now.sheet }
    {
        self.sheet.head()
    }

    // The rows of the sheet.
    pub fn rows(&self) -> &[Row]
        ensures { result.now ≡ accepted_rows self.now.sheet }
    {
        self.sheet.rows()
    }

    // How the list of steps is cut into programs.
    pub fn layout(&self) -> Layout
        ensures { result ≡ self.now.layout }
    {
        self.layout
    }

    // The list of steps.
    pub fn steps(&self) -> &[Step]
        ensures { result.now ≡ self.now.steps.items }
    {
        self.steps.as_slice()
    }

    // Hands both lists back: the sheet as a draft, and the steps.
    pub fn close(self) -> (Draft, Vec<Step>)
        ensures { (result.0 ≡ accepted_draft self.sheet) × (result.1 ≡ self.steps) }
    {
        let Translated {
            sheet,
            layout: _,
            steps,
        } = self;
        (sheet.reopen(), steps)
    }
}
