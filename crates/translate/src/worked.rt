ghost use Rattle.translate.specs.Worked.{WorkedPrograms};

// The lengths of the worked sheet's programs, computed from the definitions.
pub fn worked_programs() -> u8
    ensures { WorkedPrograms }
{
    0
}
