ghost use Rattle.std.specs.Prelude.{◌≡◌, ◌≤◌, false, length, is_some};
ghost use Rattle.netcode.specs.Layouts.{programs_of};
ghost use Rattle.netcode.specs.Rules.{first_broken};

use netcode::{Layout, Step, program_count};

// The programs of a run: a list of steps, with how it is cut into programs, which keep the rules.
#[derive(Clone, Copy)]
pub struct Code<'a> {
    pub(crate) layout: &'a Layout,
    pub(crate) steps: &'a [Step],
    ghost lawful: { is_some (first_broken 0 (programs_of layout.now steps.now)) ≡ false },
    ghost shape: { length layout.now.lengths ≡ 16 },
}

impl Code<'_> {
    // How many programs there are.
    pub(crate) fn count(self) -> usize
        ensures count { result ≡ length (programs_of self.entry.layout.now self.entry.steps.now) }
        ensures few { result ≤ 16 }
    {
        program_count(self.layout.stations)
    }
}
