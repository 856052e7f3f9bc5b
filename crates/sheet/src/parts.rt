ghost use Rattle.std.specs.Prelude.{◌≡◌};
ghost use Rattle.fault.specs.declared.refusal.Refusal.TheVariants.{Strange};
ghost use Rattle.wire.specs.Numbers.{fault_at};
ghost use Rattle.sheet.specs.Parts.{shown, relation_at, inputs_at};

use crate::row::{Inputs, Relation};
use fault::{Fault, Offset, Refusal};
use wire::Reader;

// A number at an offset where no rule of the form allows it.
pub fn strange(offset: usize) -> Fault<Offset>
    ensures { result ≡ fault_at Strange offset }
{
    Fault {
        refusal: Refusal::Strange,
        place: Offset(offset),
    }
}

// The next relation: 0 is equal, 1 unequal.
pub fn read_relation(reader: &mut Reader) -> Result<Relation, Fault<Offset>>
    ensures value { shown result reader.new.pos ≡ relation_at reader.old.bytes.now reader.old.pos }
    ensures same { reader.new.bytes ≡ reader.old.bytes }
{
    let start = reader.pos();
    match reader.number()? {
        0 => Ok(Relation::Equal),
        1 => Ok(Relation::Unequal),
        _ => Err(strange(start)),
    }
}

// The next inputs: a count of at most two, and as many variables.
pub fn read_inputs(reader: &mut Reader) -> Result<Inputs, Fault<Offset>>
    ensures value { shown result reader.new.pos ≡ inputs_at reader.old.bytes.now reader.old.pos }
    ensures same { reader.new.bytes ≡ reader.old.bytes }
{
    let start = reader.pos();
    match reader.number()? {
        0 => Ok(Inputs::Nothing),
        1 => {
            let first = reader.number()?;
            Ok(Inputs::Single(first))
        }
        2 => {
            let first = reader.number()?;
            let second = reader.number()?;
            Ok(Inputs::Pair(first, second))
        }
        _ => Err(strange(start)),
    }
}
