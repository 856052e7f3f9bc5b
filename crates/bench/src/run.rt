ghost use Rattle.std.specs.Prelude.{◌≡◌, false, length, is_some};
ghost use Rattle.netcode.specs.Layouts.{programs_of};
ghost use Rattle.netcode.specs.Rules.{first_broken};
ghost use Rattle.bench.specs.Quiet.{Quiet};
ghost use Rattle.bench.specs.Shown.{Counted};

use crate::machine::Machine;
use netcode::{Layout, Step};

// A run: programs that keep the rules, and the machine that they run on. No row is counted more than once for each unit
// and tick, so that no count overflows. (That a call leaves the programs as they are stands in its contract: it is said of a
// run before and after, which no ghost field of one value can say.)
#[derive(Drop)]
pub struct Run {
    pub(crate) layout: Layout,
    pub(crate) steps: Vec<Step>,
    pub(crate) machine: Machine,
    ghost lawful: { is_some (first_broken 0 (programs_of layout steps.items)) ≡ false },
    ghost shape: { length layout.lengths ≡ 16 },
    ghost counted: { Counted machine.state },
    ghost quiet: { Quiet machine.quiet machine.state },
}
