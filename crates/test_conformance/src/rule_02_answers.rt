//! The cases of rule 02, answers.

/// The programs, in the order of their names.
pub const PROGRAMS: &str = r"
# another_each_time: int asked; int every_second(void) { asked = asked + 1; return asked % 2 == 0; } void test(int n) { __try { RaiseException(0xE0000001, 0, 0, 0); } __except (every_second()) { put(n); } } int main(void) { int i; for (i = 1; i < 5; i++) { __try { test(i); } __except (1) { put(10 + i); } } return 0; }
=> 0 11 / 2 / 13 / 4 / exit 0
# by_a_local: void fail(void) { RaiseException(0xE0000001, 0, 0, 0); } void test(int wanted) { int accept = 0; __try { accept = wanted; fail(); } __except (accept) { put(accept); } put(2); } int main(void) { __try { test(1); test(0); } __except (1) { put(3); } return 0; }
=> 0 1 / 2 / 3 / exit 0
# by_the_code: void test(int n) { __try { __try { RaiseException(0xE0000000 + n, 0, 0, 0); } __except (GetExceptionCode() == 0xE0000001) { put(1); } } __except (GetExceptionCode() == 0xE0000002) { put(2); } } int main(void) { test(2); test(1); return 0; }
=> 0 2 / 1 / exit 0
# comma_operator: int main(void) { __try { __try { RaiseException(0xE0000001, 0, 0, 0); } __except (put(1), put(2), EXCEPTION_CONTINUE_SEARCH) { put(11); } } __except (put(3), EXCEPTION_EXECUTE_HANDLER) { put(4); } return 0; }
=> 0 1 / 2 / 3 / 4 / exit 0
# conditional_operator: void test(int accept) { __try { __try { RaiseException(0xE0000001, 0, 0, 0); } __except (accept ? EXCEPTION_EXECUTE_HANDLER : EXCEPTION_CONTINUE_SEARCH) { put(1); } put(2); } __except (EXCEPTION_EXECUTE_HANDLER) { put(3); } } int main(void) { test(1); test(0); return 0; }
=> 0 1 / 2 / 3 / exit 0
# execute_handler: int main(void) { put(1); __try { put(2); RaiseException(0xE0000001, 0, 0, 0); put(11); } __except (EXCEPTION_EXECUTE_HANDLER) { put(3); } put(4); return 0; }
=> 0 1 / 2 / 3 / 4 / exit 0
# filter_with_a_statement: int careful(int n) { __try { put(n); } __finally { put(n + 1); } return n == 3; } int main(void) { __try { __try { RaiseException(0xE0000001, 0, 0, 0); } __except (careful(1)) { put(11); } } __except (careful(3)) { put(5); } return 0; }
=> 0 1 / 2 / 3 / 4 / 5 / exit 0
# no_exception: int say(int n, int answer) { put(n); return answer; } int main(void) { __try { put(1); } __except (say(11, 1)) { put(12); } put(2); return 0; }
=> 0 1 / 2 / exit 0
# nobody_accepts: int say(int n, int answer) { put(n); return answer; } int main(void) { __try { __try { RaiseException(0xE0000007, 0, 0, 0); } __except (say(1, 0)) { put(11); } } __except (say(2, 0)) { put(12); } put(13); return 0; }
=> 10 1 / 2 / unhandled E0000007
# rest_of_the_section: void deep(int n) { if (n) deep(n - 1); else RaiseException(0xE0000001, 0, 0, 0); put(10 + n); } int main(void) { __try { put(1); deep(2); put(20); } __except (1) { put(2); } put(3); return 0; }
=> 0 1 / 2 / 3 / exit 0
";
