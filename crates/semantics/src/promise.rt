ghost use Rattle.semantics.specs.Promise.{RunPromiseOf};

use plant::Plant;

// The run promise, of every plant: above it every accepted sheet whose works it knows runs as its reading says, whatever
// is asked of the run.
pub fn run_promise_stands<P: Plant>(_plant: &P) -> u8
    ensures { RunPromiseOf P.model }
{
    0
}
