use sheet::{Inputs, Relation};

// A step of a program. Each field holds any number of 32 bits; the rules of a program say which it may hold.
#[derive(Clone, Copy, PartialEq)]
pub enum Step {
    // Goes to `address` where the test fails.
    Test {
        variable: u32,
        relation: Relation,
        word: u32,
        address: u32,
    },
    // The unit is next due after `ticks`, at `address`.
    Future {
        ticks: u32,
        address: u32,
    },
    Halt,
    Call {
        row: u32,
        work: u32,
        inputs: Inputs,
        output: u32,
        duration: u32,
    },
    Send {
        row: u32,
        variable: u32,
        duration: u32,
    },
    Receive {
        variable: u32,
        duration: u32,
    },
    // Puts the variable's word, where it has one, into the cell.
    Keep {
        variable: u32,
        cell: u32,
    },
    // Empties the places of the station.
    Clear,
    // Puts the cell's word, or `word` where the cell is empty, into the variable.
    Give {
        cell: u32,
        variable: u32,
        word: u32,
    },
}

// How a flat list of steps is cut into programs: the length of program p stands at p. A station has two
// programs, so those at and above twice the stations have length 0. (Not a list with a
// length of its own: that would say a second time how many programs the stations have.)
#[derive(Clone, Copy)]
pub struct Layout {
    pub stations: u32,
    pub lengths: [usize; 16],
}
