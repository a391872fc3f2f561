//! The cases of rule 04, noncontinuable.

/// The programs, in the order of their names.
pub const PROGRAMS: &str = r"
# accepted: int say(int n, int answer) { put(n); return answer; } int main(void) { __try { __try { RaiseException(0xE0000001, 1, 0, 0); put(11); } __except (say(1, 0)) { put(12); } } __except (say(2, 1)) { put(GetExceptionCode() == 0xE0000001); } return 0; }
=> 0 1 / 2 / 1 / exit 0
# continued: int decide(unsigned code) { put(code == 0xC0000025); return code == 0xC0000025 ? 1 : -1; } int main(void) { __try { RaiseException(0xE0000001, 1, 0, 0); put(11); } __except (decide(GetExceptionCode())) { put(GetExceptionCode() == 0xC0000025); } return 0; }
=> 0 0 / 1 / 1 / exit 0
# finally_runs_once: int decide(unsigned code) { put(1); return code == 0xC0000025 ? 1 : -1; } int main(void) { __try { __try { RaiseException(0xE0000001, 1, 0, 0); } __finally { put(AbnormalTermination() + 1); } } __except (decide(GetExceptionCode())) { put(3); } return 0; }
=> 0 1 / 1 / 2 / 3 / exit 0
# flag: void test(unsigned flags) { __try { RaiseException(0xE0000001, flags, 0, 0); } __except (put(GetExceptionInformation()->ExceptionRecord->ExceptionFlags & 1), 1) { put(2); } } int main(void) { test(0); test(1); return 0; }
=> 0 0 / 2 / 1 / 2 / exit 0
# replacement_may_not_be_continued: int decide(unsigned code, unsigned flags) { put(flags & 1); return code == 0xC0000025 ? 1 : -1; } int main(void) { __try { RaiseException(0xE0000001, 1, 0, 0); } __except (decide(GetExceptionCode(), GetExceptionInformation()->ExceptionRecord->ExceptionFlags)) { put(2); } return 0; }
=> 0 1 / 1 / 2 / exit 0
# searched_from_the_same_point: int decide(int n, unsigned code, int first, int second) { put(n); return code == 0xC0000025 ? second : first; } void callee(void) { __try { RaiseException(0xE0000001, 1, 0, 0); } __except (decide(1, GetExceptionCode(), 0, 0)) { put(11); } } int main(void) { __try { __try { callee(); } __except (decide(2, GetExceptionCode(), -1, 0)) { put(12); } } __except (decide(3, GetExceptionCode(), 1, 1)) { put(GetExceptionCode() == 0xC0000025); } return 0; }
=> 0 1 / 2 / 1 / 2 / 3 / 1 / exit 0
";
