ghost use Rattle.std.specs.Prelude.{◌≡◌, true};
ghost use Rattle.bench.specs.Quiet.{quiet_timer, quiet_job, quiet_unit, quiet_line, Quiet};

use crate::machine::Machine;
use semantics::{Job, Message, UnitState};

// Up to which tick a timer, a job, a unit and the line rest.
fn timer_rests(timer: Option<u32>) -> u32
    ensures { quiet_timer result timer ≡ true }
{
    timer.map_or(u32::MAX, |tick| tick.saturating_add(1))
}

fn job_rests(job: Job) -> u32
    ensures { quiet_job result job ≡ true }
{
    match job {
        Job::Idle => u32::MAX,
        Job::Store { end, .. } | Job::Carry { end } | Job::Listen { end, .. } => end,
    }
}

fn unit_rests(unit: UnitState) -> u32
    ensures { quiet_unit result unit ≡ true }
{
    timer_rests(unit.timer).min(job_rests(unit.job))
}

fn line_rests(line: Option<Message>) -> u32
    ensures { quiet_line result line ≡ true }
{
    line.map_or(u32::MAX, |message| message.end)
}

impl Machine {
    // Up to which tick all rest.
    pub(crate) fn rests(&self) -> u32
        ensures { Quiet result self.now.state }
    {
        let mut until = line_rests(self.state.line);
        for unit in &self.state.units {
            until = until.min(unit_rests(*unit));
        }
        until
    }
}
