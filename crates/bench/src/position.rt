ghost use Rattle.std.specs.Prelude.{◌≡◌, ◌+◌, ◌^◌, ◌<◌};
ghost use Rattle.fault.specs.declared.place.TickPlace.TheVariants.{Work as at_work};
ghost use Rattle.netcode.specs.Layouts.{station_of};
ghost use Rattle.semantics.specs.Machine.{place_of, fault_at};

use fault::{Fault, Refusal, TickPlace, WorkPlace};
use netcode::station_of;

// The number of a program, and of the unit that runs it. There are sixteen.
#[derive(Clone, Copy)]
pub struct Program {
    pub(crate) number: usize,
    ghost known: { number < 16 },
}

impl Program {
    // The station of the program.
    pub(crate) fn station(self) -> usize
        ensures { result ≡ station_of self.number }
    {
        station_of(self.number)
    }

    // The place of a variable of its station.
    pub(crate) fn place(self, variable: u32) -> usize
        ensures { result ≡ place_of (station_of self.number) variable }
    {
        64 * self.station() + variable as usize
    }

    // The fault of the program's step at an address.
    pub(crate) fn fault(self, refusal: Refusal, address: u32) -> Fault<TickPlace>
        ensures { result ≡ fault_at refusal self.number address }
    {
        Fault {
            refusal,
            place: TickPlace::Step {
                program: self.number,
                address: address as usize,
            },
        }
    }
}

// A step of a program, by its address.
#[derive(Clone, Copy)]
pub struct Position {
    pub(crate) program: Program,
    pub(crate) address: u32,
    ghost few: { address < 2 ^ 31 },
}

impl Position {
    // The address of the step that follows.
    pub(crate) fn next(self) -> u32
        ensures { result ≡ self.address + 1 }
    {
        self.address + 1
    }

    // The step's fault.
    pub(crate) fn fault(self, refusal: Refusal) -> Fault<TickPlace>
        ensures { result ≡ fault_at refusal self.program.number self.address }
    {
        self.program.fault(refusal, self.address)
    }

    // A plant's refusal is carried up with the step that asked for the work.
    pub(crate) fn carried_up(self, fault: Fault<WorkPlace>) -> Fault<TickPlace>
        ensures { result ≡ record { refusal = fault.refusal; place = at_work fault.place.station fault.place.work self.program.number self.address } }
    {
        Fault {
            refusal: fault.refusal,
            place: TickPlace::Work {
                station: fault.place.station,
                work: fault.place.work,
                program: self.program.number,
                address: self.address as usize,
            },
        }
    }
}
