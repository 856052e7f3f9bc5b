ghost use Rattle.std.specs.Prelude.{◌≡◌};
ghost use Rattle.plant.specs.Fit.{Fit, fit_from, row_fit};

use crate::works::Plant;
use fault::{Fault, FitPlace, Refusal};
use sheet::Row;

// Whether the plant knows the work of a row, if it is a call.
fn fit_row<P: Plant>(plant: &P, row: Row, at: usize) -> Result<(), Fault<FitPlace>>
    ensures { result ≡ row_fit P.model at row }
{
    let Row::Call(call) = row else {
        return Ok(());
    };
    if plant.knows(call.station, call.work, call.inputs.count()) {
        return Ok(());
    }
    Err(Fault {
        refusal: Refusal::UnknownWork,
        place: FitPlace {
            station: call.station,
            work: call.work,
            row: at,
        },
    })
}

// Whether the plant knows every work that the rows name. The first that it does not know is refused.
pub fn fit_rows<P: Plant>(plant: &P, rows: &[Row]) -> Result<(), Fault<FitPlace>>
    ensures value { result ≡ fit_from P.model 0 rows.now }
    ensures means { Fit P.model rows.now result }
{
    for (at, row) in rows.iter().enumerate() {
        fit_row(plant, *row, at)?;
    }
    Ok(())
}
