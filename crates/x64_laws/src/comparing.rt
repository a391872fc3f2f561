//! Conditions after CMP.

ghost use Rattle.x64_laws.specs.Comparing.{CmpDecides, SetTellsComparison};

/// After CMP of two registers each condition holds exactly where the two numbers compare so (Intel
/// manual, volume 2, CMP and Jcc).
pub fn comparisons()
    ensures { CmpDecides }
{}

/// SETcc after CMP of two registers leaves 1 exactly where the two numbers compare so, else 0
/// (Intel manual, volume 2, SETcc).
pub fn condition_bytes()
    ensures { SetTellsComparison }
{}
