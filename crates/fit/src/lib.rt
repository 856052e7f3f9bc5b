#![tactic(auto)]

ghost use Rattle.std.specs.Prelude.{◌≡◌};
ghost use Rattle.stages.specs.Views.{accepted_rows};
ghost use Rattle.plant.specs.Fit.{Fit, fit_from};

use fault::{Fault, FitPlace};
use plant::{Plant, fit_rows};
use stages::Accepted;

// Whether the plant knows every work that an accepted sheet names. The first that it does not know is refused
// with its station, its work and its row. Sheet and plant stay as they are.
pub fn fit<P: Plant>(plant: &P, sheet: &Accepted) -> Result<(), Fault<FitPlace>>
    ensures value { result ≡ fit_from P.model 0 (accepted_rows sheet.now) }
    ensures means { Fit P.model (accepted_rows sheet.now) result }
{
    fit_rows(plant, sheet.rows())
}

#[cfg(test)]
mod tests;
