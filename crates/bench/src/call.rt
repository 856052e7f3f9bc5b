ghost use Rattle.std.specs.Prelude.{◌<◌, ◌≤◌};
ghost use Rattle.netcode.specs.Laws.{InputsWithin};

use sheet::Inputs;

// The fields of a CALL, within their limits.
#[derive(Clone, Copy)]
pub struct Call {
    pub(crate) row: u32,
    pub(crate) work: u32,
    pub(crate) inputs: Inputs,
    pub(crate) output: u32,
    pub(crate) duration: u32,
    ghost marked: { row < 128 },
    ghost within: { ∥ InputsWithin inputs ∥₁ },
    ghost short: { duration ≤ 65535 },
}
