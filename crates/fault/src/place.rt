ghost use Rattle.std.specs.Prelude.{◌≡◌, List, [], ◌∷◌};
ghost use Rattle.fault.specs.Places.{bytes_place, row_place, tick_place, asked_place};
ghost use Rattle.fault.specs.declared.place.Place.TheVariants.{Offset as AtOffset, Work, WorkOfRow, Step};

// The offset of a byte, counted from 0.
#[derive(Clone, Copy, PartialEq)]
pub struct Offset(pub usize);

// Where reading or writing bytes is refused: at an offset, for want of room (with the count that is
// needed), or for what the head says.
#[derive(Clone, Copy, PartialEq)]
pub enum BytesPlace {
    Offset(usize),
    Needed(u64),
    Head,
}

// Where the rows of a sheet are refused: a row, a row with one above it, a row's variable.
#[derive(Clone, Copy, PartialEq)]
pub enum RowPlace {
    Row(usize),
    Rows { lower: usize, upper: usize },
    Variable { row: usize, variable: u32 },
}

// The work that a plant does not know.
#[derive(Clone, Copy, PartialEq)]
pub struct WorkPlace {
    pub station: u32,
    pub work: u32,
}

// The same with the row that asks for it.
#[derive(Clone, Copy, PartialEq)]
pub struct FitPlace {
    pub station: u32,
    pub work: u32,
    pub row: usize,
}

// A step: the number of its program, and its address there.
#[derive(Clone, Copy, PartialEq)]
pub struct StepPlace {
    pub program: usize,
    pub address: usize,
}

// Where a tick is refused: at a step, at a step for an unknown work, or for what the run has been through.
#[derive(Clone, Copy, PartialEq)]
pub enum TickPlace {
    Step {
        program: usize,
        address: usize,
    },
    Work {
        station: u32,
        work: u32,
        program: usize,
        address: usize,
    },
    Run,
}

// The numbers asked for, where they lie outside: a station and a variable, or a row.
#[derive(Clone, Copy, PartialEq)]
pub enum AskedPlace {
    Word { station: u32, variable: u32 },
    Mark { row: u32 },
}

// A place of any layer, as it is shown to people: each case spells out the numbers that are shown, in their order. (With
// the layers' types inside, as `Work(WorkPlace)`, whoever shows a place would match twice, and an offset would have two
// forms.)
#[derive(Clone, Copy, PartialEq)]
pub enum Place {
    Offset(usize),
    Needed(u64),
    Head,
    Row(usize),
    Rows {
        lower: usize,
        upper: usize,
    },
    Variable {
        row: usize,
        variable: u32,
    },
    Asked {
        station: u32,
        variable: u32,
    },
    AskedRow(u32),
    Work {
        station: u32,
        work: u32,
    },
    WorkOfRow {
        station: u32,
        work: u32,
        row: usize,
    },
    WorkOfStep {
        station: u32,
        work: u32,
        program: usize,
        address: usize,
    },
    Step {
        program: usize,
        address: usize,
    },
    Run,
}

impl From<Offset> for Place {
    ghost from_gives = { λ p r. r ≡ AtOffset p.0 };

    fn from(p: Offset) -> Place {
        Place::Offset(p.0)
    }
}

impl From<BytesPlace> for Place {
    ghost from_gives = { λ p r. r ≡ bytes_place p };

    fn from(p: BytesPlace) -> Place {
        match p {
            BytesPlace::Offset(o) => Place::Offset(o),
            BytesPlace::Needed(n) => Place::Needed(n),
            BytesPlace::Head => Place::Head,
        }
    }
}

impl From<RowPlace> for Place {
    ghost from_gives = { λ p r. r ≡ row_place p };

    fn from(p: RowPlace) -> Place {
        match p {
            RowPlace::Row(row) => Place::Row(row),
            RowPlace::Rows { lower, upper } => Place::Rows { lower, upper },
            RowPlace::Variable { row, variable } => Place::Variable { row, variable },
        }
    }
}

impl From<WorkPlace> for Place {
    ghost from_gives = { λ p r. r ≡ Work p.station p.work };

    fn from(p: WorkPlace) -> Place {
        Place::Work {
            station: p.station,
            work: p.work,
        }
    }
}

impl From<FitPlace> for Place {
    ghost from_gives = { λ p r. r ≡ WorkOfRow p.station p.work p.row };

    fn from(p: FitPlace) -> Place {
        Place::WorkOfRow {
            station: p.station,
            work: p.work,
            row: p.row,
        }
    }
}

impl From<StepPlace> for Place {
    ghost from_gives = { λ p r. r ≡ Step p.program p.address };

    fn from(p: StepPlace) -> Place {
        Place::Step {
            program: p.program,
            address: p.address,
        }
    }
}

impl From<TickPlace> for Place {
    ghost from_gives = { λ p r. r ≡ tick_place p };

    fn from(p: TickPlace) -> Place {
        match p {
            TickPlace::Step { program, address } => Place::Step { program, address },
            TickPlace::Work {
                station,
                work,
                program,
                address,
            } => {
                Place::WorkOfStep {
                    station,
                    work,
                    program,
                    address,
                }
            }
            TickPlace::Run => Place::Run,
        }
    }
}

impl From<AskedPlace> for Place {
    ghost from_gives = { λ p r. r ≡ asked_place p };

    fn from(p: AskedPlace) -> Place {
        match p {
            AskedPlace::Word { station, variable } => Place::Asked { station, variable },
            AskedPlace::Mark { row } => Place::AskedRow(row),
        }
    }
}
