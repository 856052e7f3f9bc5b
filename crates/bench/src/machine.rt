ghost use Rattle.std.specs.Prelude.{◌≡◌, ◌≤◌, length};
ghost use Rattle.semantics.specs.Machine.{limit};

use semantics::State;

// The machine of a run: places, cells, marks, units, the line and the clock, changed by steps and ticks; and a tick up
// to which nothing is due and nothing ends. No more ticks are granted than the limit.
#[derive(Clone, Copy)]
pub struct Machine {
    pub(crate) state: State,
    pub(crate) quiet: u32,
    ghost units: { length state.units ≡ 16 },
    ghost few: { state.granted ≤ limit },
}
