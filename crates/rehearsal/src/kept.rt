ghost use Rattle.std.specs.Prelude.{◌≡◌};

use fault::{Fault, Place};
use netcode::Step;
use stages::Accepted;

// A sheet that was not run, still accepted, with the list of steps that was handed in, and why.
#[derive(Drop)]
pub struct Kept {
    pub sheet: Accepted,
    pub steps: Vec<Step>,
    pub fault: Fault<Place>,
}

impl<P> From<(Accepted, Vec<Step>, Fault<P>)> for Kept
where
    Place: From<P>,
{
    ghost from_gives = { λ e k. (k.sheet ≡ e.0) × (k.steps ≡ e.1) × (k.fault.refusal ≡ e.2.refusal) × ⟦<Place as From<P>>⟧.from_gives e.2.place k.fault.place };

    fn from(e: (Accepted, Vec<Step>, Fault<P>)) -> Kept {
        let (sheet, steps, fault) = e;
        Kept {
            sheet,
            steps,
            fault: fault.carried(),
        }
    }
}
