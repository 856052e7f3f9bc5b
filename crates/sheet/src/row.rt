ghost use Rattle.std.specs.Prelude.{◌≡◌, length};
ghost use Rattle.sheet.specs.Rows.{tests_of, inputs_of, all_below, condition_of, relation_code, no_row};
ghost use Rattle.sheet.specs.Parts.{inputs_numbers};

use arrayvec::ArrayVec;

// What a sheet says of itself before its rows: how many stations, variables, ticks in a cycle, and rows.
#[derive(Clone, Copy, PartialEq)]
pub struct Head {
    pub stations: u32,
    pub variables: u32,
    pub cycle: u32,
    pub rows: u32,
}

// How a test compares a variable's word with its own, by the number that it is written as.
#[derive(Clone, Copy, PartialEq, Default)]
pub enum Relation {
    #[default]
    Equal = 0,
    Unequal = 1,
}

#[derive(Clone, Copy, PartialEq, Default)]
pub struct Test {
    pub variable: u32,
    pub relation: Relation,
    pub word: u32,
}

// The tests that must hold for a row to be performed, in their order. (Five cases, and no list of fixed capacity: rows are
// copied, and such a list is not `Copy`. `tests` gives the list.)
#[derive(Clone, Copy, PartialEq)]
pub enum Condition {
    Always,
    One(Test),
    Two(Test, Test),
    Three(Test, Test, Test),
    Four(Test, Test, Test, Test),
}

// The variables that a call reads.
#[derive(Clone, Copy, PartialEq)]
pub enum Inputs {
    Nothing,
    Single(u32),
    Pair(u32, u32),
}

// A word kept from one cycle to the next: what `taken` holds at the end of a cycle, `given` holds in the
// next one; `first` stands in where nothing was kept yet.
#[derive(Clone, Copy, PartialEq, Default)]
pub struct Keep {
    pub station: u32,
    pub taken: u32,
    pub given: u32,
    pub first: u32,
}

// A work that a station asks of the plant. Its condition is the tests, or while a row is read their bytes.
#[derive(Clone, Copy, PartialEq)]
pub struct Call<C = Condition> {
    pub station: u32,
    pub work: u32,
    pub inputs: Inputs,
    pub output: u32,
    pub date: u32,
    pub duration: u32,
    pub condition: C,
}

// A word that a station sends to the listeners: bit n, worth 2 to the power n, names station n. Its condition is as a
// call's.
#[derive(Clone, Copy, PartialEq)]
pub struct Send<C = Condition> {
    pub station: u32,
    pub variable: u32,
    pub listeners: u32,
    pub date: u32,
    pub duration: u32,
    pub condition: C,
}

#[derive(Clone, Copy, PartialEq)]
pub enum Row {
    Keep(Keep),
    Call(Call),
    Send(Send),
}

impl From<Relation> for u32 {
    ghost from_gives = { λ relation code. code ≡ relation_code relation };

    fn from(relation: Relation) -> u32 {
        relation as u32
    }
}

impl Condition {
    // The tests, in their order.
    pub fn tests(self) -> ArrayVec<Test, 4>
        ensures { result.items ≡ tests_of self }
    {
        let mut tests = ArrayVec::new();
        match self {
            Condition::Always => {}
            Condition::One(a) => tests.push(a),
            Condition::Two(a, b) => {
                tests.push(a);
                tests.push(b);
            }
            Condition::Three(a, b, c) => {
                tests.push(a);
                tests.push(b);
                tests.push(c);
            }
            Condition::Four(a, b, c, d) => {
                tests.push(a);
                tests.push(b);
                tests.push(c);
                tests.push(d);
            }
        }
        tests
    }
}

impl Inputs {
    // How many variables there are.
    pub fn count(self) -> u32
        ensures { result ≡ length (inputs_of self) }
    {
        match self {
            Inputs::Nothing => 0,
            Inputs::Single(_) => 1,
            Inputs::Pair(_, _) => 2,
        }
    }

    // The numbers that they are written as: how many there are, and each.
    pub fn numbers(self) -> ArrayVec<u32, 3>
        ensures { result.items ≡ inputs_numbers self }
    {
        let mut numbers = ArrayVec::new();
        numbers.push(self.count());
        match self {
            Inputs::Nothing => {}
            Inputs::Single(a) => numbers.push(a),
            Inputs::Pair(a, b) => {
                numbers.push(a);
                numbers.push(b);
            }
        }
        numbers
    }

    // Whether each variable is below a limit.
    pub fn all_below(self, limit: u32) -> bool
        ensures { result ≡ all_below limit (inputs_of self) }
    {
        match self {
            Inputs::Nothing => true,
            Inputs::Single(a) => a < limit,
            Inputs::Pair(a, b) => a < limit && b < limit,
        }
    }
}

impl Row {
    // The tests that must hold for the row to be performed; a keep row has none.
    pub fn condition(self) -> Condition
        ensures { result ≡ condition_of self }
    {
        match self {
            Row::Keep(_) => Condition::Always,
            Row::Call(c) => c.condition,
            Row::Send(s) => s.condition,
        }
    }
}

// A row that says nothing, to fill a list with: a keep row of zeros.
impl Default for Row {
    ghost is_default = { λ r. r ≡ no_row };

    fn default() -> Row {
        Row::Keep(Keep::default())
    }
}
