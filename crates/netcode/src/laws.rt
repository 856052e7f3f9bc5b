ghost use Rattle.netcode.specs.Laws.{RulesStand, ProgramsNumbered};

// The checks of a program and of all programs find no fault exactly where the rules are kept, and else
// name the first breach.
pub fn rules_stand() -> u8
    ensures { RulesStand }
{
    0
}

// The numbers of the programs follow one another, two to a station.
pub fn programs_numbered() -> u8
    ensures { ProgramsNumbered }
{
    0
}
