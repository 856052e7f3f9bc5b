ghost use Rattle.std.specs.Prelude.{◌≡◌, length, Some, None, vec_len, MatchResult};
ghost use Rattle.stages.specs.Views.{accepted_head, accepted_rows};
ghost use Rattle.translate.specs.Translation.{translated};
ghost use Rattle.semantics.specs.Machine.{new_state};
ghost use Rattle.bench.specs.Runs.{programs_in};
ghost use Rattle.rehearsal.specs.Ran.{why_not, Ran, HoldsPrograms};

use crate::kept::Kept;
use bench::Run;
use fit::fit;
use netcode::Step;
use plant::Plant;
use semantics::{Reply, Request};
use sheet::too_short;
use stages::Accepted;
use translate::{Translated, translate};

// The run of the programs of an accepted sheet. Making never refuses them.
fn started(sheet: Translated) -> Run
    requires { HoldsPrograms sheet }
    ensures programs { programs_in result ≡ translated (accepted_head sheet.sheet) (accepted_rows sheet.sheet) }
    ensures state { result.machine.state ≡ new_state }
{
    let layout = sheet.layout();
    let (_, steps) = sheet.close();
    Run::make(layout, steps).unwrap()
}

// Runs an accepted sheet above a plant that knows its works: translates it into the list of steps, makes the run, and
// serves the requests in order, with their replies at the front of the list handed in. Refused only 12, for a work that
// the plant does not know, or 4, for a list that is too short; then nothing has moved, and sheet and steps come back.
pub fn run_sheet<P: Plant>(
    sheet: Accepted,
    steps: Vec<Step>,
    plant: &mut P,
    requests: &[Request],
    replies: &mut [Reply],
) -> Result<Run, Kept>
    ensures { MatchResult result
        (λ run. (why_not P.model (accepted_head sheet) (accepted_rows sheet) (vec_len steps) (length replies.old) (length requests.now) ≡ None)
        × Ran P.model (accepted_head sheet) (accepted_rows sheet) (P.meaning plant.old) (P.meaning plant.new) requests.now replies.old replies.new run)
        (λ e. (why_not P.model (accepted_head sheet) (accepted_rows sheet) (vec_len steps) (length replies.old) (length requests.now) ≡ Some e.fault)
        × (e.sheet ≡ sheet) × (e.steps.items ≡ steps.items)
        × (P.meaning plant.new ≡ P.meaning plant.old) × (replies.new ≡ replies.old)) }
{
    if let Err(fault) = fit(plant, &sheet) {
        return Err((sheet, steps, fault).into());
    }
    if replies.len() < requests.len() {
        return Err((sheet, steps, too_short(requests.len() as u64)).into());
    }
    let mut run = started(translate(sheet, steps)?);
    let _ = run.serve_all(plant, requests, replies);
    Ok(run)
}
