ghost use Rattle.translate.specs.Laws.{ProgramsLawful};
ghost use Rattle.translate.specs.Turns.{TurnsStand};

// Every program of an accepted sheet keeps the rules of programs.
pub fn programs_lawful() -> u8
    ensures { ProgramsLawful }
{
    0
}

// A unit that is woken for a date performs the topmost row of that date whose tests hold, and is next due
// at the first of its dates not before that row's end, or at the cycle's end; with none, at its next date
// or the cycle's end.
pub fn turns_stand() -> u8
    ensures { TurnsStand }
{
    0
}
