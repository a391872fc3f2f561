//! Jumps, and what filters and blocks alone may call.

use crate::verdict::all_as_wanted;
use std::test::Fail;

/// Jumps (C11, 6.8.6; Microsoft C reference, "try-except statement", "try-finally statement"). A
/// fault is at the keyword.
const JUMPS: &str = r"
int main(void){ while (1) break; return 0; } => accepted
int main(void){ do continue; while (0); return 0; } => accepted
int main(void){ for (;;) { { break; } } return 0; } => accepted
int main(void){ while (1) { __try { break; } __finally { } } return 0; } => accepted
int main(void){ while (1) { __try { } __except (1) { continue; } } return 0; } => accepted
int main(void){ __try { __leave; } __finally { } return 0; } => accepted
int main(void){ __try { __leave; } __except (1) { } return 0; } => accepted
int main(void){ __try { { if (1) __leave; } } __except (1) { } return 0; } => accepted
int main(void){ __try { } __finally { while (1) break; } return 0; } => accepted
int main(void){ __try { } __finally { __try { __leave; } __finally { } } return 0; } => accepted
int main(void){ __try { __try { } __except (1) { __leave; } } __finally { } return 0; } => accepted
int main(void){ while (1) { __try { __leave; } __finally { } break; } return 0; } => accepted
int main(void){ __try { return 1; } __finally { } return 0; } => accepted
int main(void){ __try { } __except (1) { return 1; } return 0; } => accepted
int main(void){ __try { while (1) { __leave; } } __finally { } return 0; } => accepted
int main(void){ __try { } __finally { for (;;) continue; } return 0; } => accepted
int main(void){ __try { } __finally { __try { } __except (1) { } } return 0; } => accepted
int main(void){ break; return 0; } => JumpOutsideLoop 16
int main(void){ continue; return 0; } => JumpOutsideLoop 16
int main(void){ if (1) break; return 0; } => JumpOutsideLoop 23
int main(void){ { continue; } return 0; } => JumpOutsideLoop 18
int main(void){ while (1) ; break; return 0; } => JumpOutsideLoop 28
int main(void){ __try { break; } __finally { } return 0; } => JumpOutsideLoop 24
int main(void){ __try { } __except (1) { continue; } return 0; } => JumpOutsideLoop 41
int main(void){ __try { } __finally { break; } return 0; } => JumpOutsideLoop 38
int main(void){ do ; while (0); continue; return 0; } => JumpOutsideLoop 32
int main(void){ for (;;) { } break; return 0; } => JumpOutsideLoop 29
int main(void){ __leave; return 0; } => LeaveOutsideTry 16
int main(void){ while (1) __leave; return 0; } => LeaveOutsideTry 26
int main(void){ __try { } __except (1) { __leave; } return 0; } => LeaveOutsideTry 41
int main(void){ __try { } __finally { __leave; } return 0; } => LeaveOutsideTry 38
int main(void){ __try { } __finally { } __leave; return 0; } => LeaveOutsideTry 40
int main(void){ { __try { } __except (1) { { __leave; } } } return 0; } => LeaveOutsideTry 45
int main(void){ __try { } __finally { return 1; } return 0; } => JumpOutOfFinally 38
int main(void){ while (1) { __try { } __finally { break; } } return 0; } => JumpOutOfFinally 50
int main(void){ while (1) { __try { } __finally { continue; } } return 0; } => JumpOutOfFinally 50
int main(void){ __try { __try { } __finally { __leave; } } __except (1) { } return 0; } => JumpOutOfFinally 46
int main(void){ __try { } __finally { __try { return 1; } __finally { } } return 0; } => JumpOutOfFinally 46
int main(void){ while (1) { __try { } __finally { __try { break; } __except (1) { } } } return 0; } => JumpOutOfFinally 58
int main(void){ __try { __try { } __finally { __try { } __except (1) { __leave; } } } __finally { } return 0; } => JumpOutOfFinally 71
int main(void){ __try { } __finally { while (1) return 1; } return 0; } => JumpOutOfFinally 48
int main(void){ __leave; } => LeaveOutsideTry 16
int main(void){ __try{ } __finally{ return 1; } } => JumpOutOfFinally 36
";

/// What means something in filters, `__except` blocks and `__finally` blocks alone (Microsoft C
/// reference, "try-except statement", "try-finally statement"). A fault is at the name; of two
/// there, as where the count of the arguments is wrong too, the earlier rule is reported.
const FILTERS: &str = r"
int main(void){ __try { } __except (GetExceptionCode() == 5) { } __try { } __except (1) { GetExceptionCode(); } return 0; } => accepted
int main(void){ __try { } __except (GetExceptionInformation()->ExceptionRecord->ExceptionInformation[14]) { } __try { } __except (GetExceptionInformation()->ExceptionRecord->NumberParameters) { } return 0; } => accepted
int main(void){ __try { } __finally { AbnormalTermination(); if (AbnormalTermination()) put(1); } return 0; } => accepted
int main(void){ __try { } __except (1) { __try { GetExceptionCode(); } __finally { GetExceptionCode(); AbnormalTermination(); } } return 0; } => accepted
int main(void){ GetExceptionCode(); return 0; } => CodeOutsideFilter 16
int main(void){ __try { GetExceptionCode(); } __except (1) { } return 0; } => CodeOutsideFilter 24
int main(void){ __try { } __finally { GetExceptionCode(); } return 0; } => CodeOutsideFilter 38
int main(void){ __try { } __except (1) { } GetExceptionCode(); return 0; } => CodeOutsideFilter 43
int main(void){ GetExceptionInformation()->ExceptionRecord->ExceptionCode; return 0; } => InfoOutsideFilter 16
int main(void){ __try { } __except (1) { GetExceptionInformation()->ExceptionRecord->ExceptionFlags; } return 0; } => InfoOutsideFilter 41
int main(void){ __try { GetExceptionInformation()->ExceptionRecord->ExceptionInformation[15]; } __except (1) { } return 0; } => InfoOutsideFilter 24
int main(void){ AbnormalTermination(); return 0; } => AbnormalOutsideFinally 16
int main(void){ __try { AbnormalTermination(); } __finally { } return 0; } => AbnormalOutsideFinally 24
int main(void){ __try { } __except (AbnormalTermination()) { } return 0; } => AbnormalOutsideFinally 36
int main(void){ __try { } __except (1) { AbnormalTermination(); } return 0; } => AbnormalOutsideFinally 41
int main(void){ __try { } __finally { } AbnormalTermination(); return 0; } => AbnormalOutsideFinally 40
int main(void){ __try { } __except (GetExceptionInformation()->ExceptionRecord->ExceptionInformation[15]) { } return 0; } => TypeClash 101
int main(void){ GetExceptionCode(1); return 0; } => ArgCount 16
int main(void){ __try { } __except (GetExceptionCode(1)) { } return 0; } => ArgCount 36
int main(void){ AbnormalTermination(1); return 0; } => ArgCount 16
int main(void){ __try { } __finally { AbnormalTermination(1); } return 0; } => ArgCount 38
";

#[test]
fn jumps(rt: HostRuntime) -> Result<(), Fail> {
    all_as_wanted(&rt, rt.alloc(), &[JUMPS, FILTERS])
}
