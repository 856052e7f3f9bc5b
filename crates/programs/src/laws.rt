ghost use Rattle.programs.specs.Laws.{ReadExactly, OneFileForm, WrittenReadsBack};

// Bytes read as a program file exactly when they are its byte form, which is the only one; what was
// written is read back.
pub fn files_stand() -> u8
    ensures exactly { ReadExactly }
    ensures one { OneFileForm }
    ensures back { WrittenReadsBack }
{
    0
}
