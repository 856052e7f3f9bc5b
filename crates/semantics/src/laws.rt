ghost use Rattle.semantics.specs.Laws.{LawsStand};

use plant::Plant;

// Laws of the machine above every plant, for any programs: what a rehearsal is, that a refused tick ends the run unless
// it was refused at the limit, and which requests change nothing.
pub fn laws_stand<P: Plant>(_plant: &P) -> u8
    ensures { LawsStand P.model }
{
    0
}
