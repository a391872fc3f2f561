//! What is spelled.

ghost use Rattle.x64_laws.specs.ReadOnly as read_only;
ghost use Rattle.x64_laws.specs.Spelled.{SpelledIsEncodable, SpelledIsShort};

/// What some bytes spell can be encoded, and no spelling is longer than the longest instruction
/// (Intel manual, volume 2, chapter 2).
pub fn spelled()
    ensures encodable { SpelledIsEncodable }
    ensures short { SpelledIsShort }
{}

/// Spellings that are never written are read as the manual has them: the other direction of two
/// registers, longer immediates and displacements, jumps by a byte, and prefixes that say nothing
/// (Intel manual, volume 2, each instruction's page).
pub fn only_read()
    ensures arithmetic { read_only.ArithmeticReadsRegisters }
    ensures mov { read_only.MovReadsRegisters }
    ensures mov_immediate { read_only.MovReadsImmediate }
    ensures arithmetic_immediate { read_only.ArithmeticReadsImmediate }
    ensures jmp { read_only.JmpReadsByte }
    ensures jcc { read_only.JccReadsByte }
    ensures rows { read_only.RowsOnlyRead }
{}
