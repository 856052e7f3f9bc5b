use fault::{AskedPlace, Fault, TickPlace};

// What a run remembers of a row: how often it was performed, and of the latest time the ticks granted before,
// the words read and the word given.
#[derive(Clone, Copy)]
pub struct Mark {
    pub count: u32,
    pub tick: u32,
    pub first: Option<u32>,
    pub second: Option<u32>,
    pub given: Option<u32>,
}

// What a unit is busy with, up to the tick `end`: a call whose answer is then stored, a send, or listening. Who
// listens knows the address of its own step, where it is refused if no message ends then.
#[derive(Clone, Copy)]
pub enum Job {
    Idle,
    Store {
        end: u32,
        variable: u32,
        word: u32,
    },
    Carry {
        end: u32,
    },
    Listen {
        end: u32,
        variable: u32,
        address: u32,
    },
}

// A unit runs one program. It is due at the tick `timer`, at `address`; coming due spends the timer.
#[derive(Clone, Copy)]
pub struct UnitState {
    pub timer: Option<u32>,
    pub address: u32,
    pub job: Job,
}

// The word on the line, which leaves it at the tick `end`.
#[derive(Clone, Copy)]
pub struct Message {
    pub end: u32,
    pub word: u32,
}

// A run, in fixed memory: 64 places for each of 8 stations, in one list, a cell for each keep row, a mark for each row, a
// unit for each program, the line, and how many ticks were granted, which is the clock.
#[derive(Clone, Copy)]
pub struct State {
    pub places: [Option<u32>; 512],
    pub cells: [Option<u32>; 16],
    pub marks: [Mark; 128],
    pub units: [UnitState; 16],
    pub line: Option<Message>,
    pub granted: u32,
    pub stopped: bool,
}

// What can be asked of a run.
#[derive(Clone, Copy)]
pub enum Request {
    Tick,
    Rehearse(u32),
    WordAt { station: u32, variable: u32 },
    MarkAt { row: u32 },
}

// What it replies.
#[derive(Clone, Copy)]
pub enum Reply {
    Granted,
    Refused(Fault<TickPlace>),
    Made {
        count: u32,
        ended: Option<Fault<TickPlace>>,
    },
    Word(Option<u32>),
    Mark(Mark),
    Outside(Fault<AskedPlace>),
}
