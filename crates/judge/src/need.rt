use sheet::Condition;

// A variable that must be available at a station by a date, after some tests.
#[derive(Clone, Copy)]
pub struct Need {
    pub station: u32,
    pub variable: u32,
    pub date: u32,
    pub after: Condition,
}

// The first variable that is needed and that no row above provides.
#[derive(Clone, Copy)]
pub struct Missing {
    pub variable: u32,
}
