//! The least fault.

ghost use Rattle.std.specs.Prelude.{◌≡◌};
ghost use Rattle.c_resolved.specs.Accepted.{rank, is_earlier};
ghost use Rattle.c_resolved.specs.Expressions.{fault_at};
ghost use Rattle.c_expressions.specs.Kept.{broken, AddsFaults};

use c_resolved::fault::Fault;

/// A broken rule, and its place.
#[derive(Clone, Copy, Drop)]
pub struct Broken {
    /// The place, in bytes from the text's begin.
    pub at: u64,
    /// The rule.
    pub fault: Fault,
}

fn rank(fault: Fault) -> u8
    ensures { result ≡ rank fault }
{
    match fault {
        Fault::NoMain => 0,
        Fault::UnknownName => 1,
        Fault::Duplicate => 2,
        Fault::NotLvalue => 3,
        Fault::TypeClash => 4,
        Fault::ArgCount => 5,
        Fault::LeaveOutsideTry => 6,
        Fault::JumpOutOfFinally => 7,
        Fault::JumpOutsideLoop => 8,
        Fault::CodeOutsideFilter => 9,
        Fault::InfoOutsideFilter => 10,
        Fault::AbnormalOutsideFinally => 11,
        Fault::BadInitialiser => 12,
    }
}

fn is_earlier(a: Broken, b: Broken) -> bool
    ensures { result ≡ is_earlier (broken a) (broken b) }
{
    a.at < b.at || (a.at == b.at && rank(a.fault) < rank(b.fault))
}

/// The least of the faults so far: the one at the least place, and at one place that of the
/// earliest rule.
#[derive(Clone, Copy, Drop)]
pub struct LeastFault {
    /// None while no rule is broken.
    pub found: Option<Broken>,
}

impl LeastFault {
    /// One more fault.
    pub fn add(&mut self, at: u64, fault: Fault)
        ensures { AddsFaults self.old self.new (fault_at at fault) }
    {
        let new = Broken { at, fault };
        match self.found {
            None => self.found = Some(new),
            Some(old) => {
                if is_earlier(new, old) {
                    self.found = Some(new);
                }
            }
        }
    }
}
