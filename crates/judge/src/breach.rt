use sheet::Head;

// The rules for the rows of a sheet with this head.
#[derive(Clone, Copy)]
pub struct SheetRules {
    pub head: Head,
}

// How a row breaks the rules, with the topmost row above that it conflicts with, or the first variable
// that is not available.
#[derive(Clone, Copy)]
pub enum Breach {
    Outside,
    TestedTwice,
    TwoWriters(usize),
    Clash(usize),
    Unavailable(u32),
}
