ghost use Rattle.semantics.specs.Worked.{WorkedCases};

// The worked cases, as one fact: numbers, verdicts, the lengths of programs, a table and a script from their bytes to
// their marks, and a keep row over three cycles.
pub fn worked_cases() -> u8
    ensures { WorkedCases }
{
    0
}
