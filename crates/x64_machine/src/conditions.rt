ghost use Rattle.std.specs.Prelude.{◌≡◌};
ghost use Rattle.x64_machine.specs.Conditions as spec;

use crate::cpu::Flags;
use crate::shifts::differ;
use x64_instr::instruction::Condition;

impl Flags {
    /// Whether the condition holds (Intel manual, volume 1, appendix B "EFLAGS Condition Codes").
    pub fn holds(self, condition: Condition) -> bool
        ensures { result ≡ spec.holds self condition }
    {
        match condition {
            Condition::Overflow => self.overflow,
            Condition::NotOverflow => !self.overflow,
            Condition::Below => self.carry,
            Condition::AboveOrEqual => !self.carry,
            Condition::Equal => self.zero,
            Condition::NotEqual => !self.zero,
            Condition::BelowOrEqual => self.carry || self.zero,
            Condition::Above => !(self.carry || self.zero),
            Condition::Sign => self.sign,
            Condition::NotSign => !self.sign,
            Condition::Less => differ(self.sign, self.overflow),
            Condition::GreaterOrEqual => !differ(self.sign, self.overflow),
            Condition::LessOrEqual => self.zero || differ(self.sign, self.overflow),
            Condition::Greater => !(self.zero || differ(self.sign, self.overflow)),
        }
    }
}
