//! The cases of rule 07, collided unwindings.

/// The programs, in the order of their names.
pub const PROGRAMS: &str = r"
# across_functions: void inner(void) { __try { RaiseException(0xE0000001, 0, 0, 0); } __finally { put(1); RaiseException(0xE0000002, 0, 0, 0); } } void middle(void) { __try { inner(); put(11); } __finally { put(2); } } int main(void) { __try { __try { middle(); } __except (GetExceptionCode() == 0xE0000002) { put(3); } put(4); } __except (1) { put(12); } return 0; }
=> 0 1 / 2 / 3 / 4 / exit 0
# after_a_break: int main(void) { int i; for (i = 0; i < 3; i++) { __try { __try { if (i == 1) break; } __finally { if (AbnormalTermination()) RaiseException(0xE0000001, 0, 0, 0); put(i); } } __except (1) { put(10 + i); } } put(i); return 0; }
=> 0 0 / 11 / 2 / 3 / exit 0
# after_a_return: int early(void) { __try { return 11; } __finally { put(AbnormalTermination()); RaiseException(0xE0000001, 0, 0, 0); } return 12; } int main(void) { __try { put(early()); } __except (1) { put(2); } return 0; }
=> 0 1 / 2 / exit 0
# block_runs_once: int runs; int main(void) { __try { __try { __try { __try { RaiseException(0xE0000001, 0, 0, 0); } __finally { put(1); } } __finally { runs = runs + 1; put(2); RaiseException(0xE0000002, 0, 0, 0); } } __finally { put(3); } } __except (1) { put(runs); } return 0; }
=> 0 1 / 2 / 3 / 1 / exit 0
# fault_in_the_block: int zero; int main(void) { __try { __try { __try { RaiseException(0xE0000001, 0, 0, 0); } __finally { put(1); put(7 / zero); } } __except (GetExceptionCode() == 0xC0000094) { put(2); } } __except (1) { put(11); } return 0; }
=> 0 1 / 2 / exit 0
# in_a_loop: int main(void) { int i; int sum = 0; for (i = 0; i < 100; i++) { __try { __try { RaiseException(0xE0000001, 0, 0, 0); } __finally { RaiseException(0xE0000002, 0, 0, 0); } } __except (1) { sum = sum + (GetExceptionCode() == 0xE0000002); } } put(sum); return 0; }
=> 0 100 / exit 0
# in_each_caller: void fail(int n) { RaiseException(0xE0000000 + n, 0, 0, 0); } void deep(int n) { __try { if (n == 3) fail(9); deep(n + 1); } __finally { put(n); fail(n); } } int main(void) { __try { deep(0); } __except (1) { put(GetExceptionCode() == 0xE0000000); } put(5); return 0; }
=> 0 3 / 2 / 1 / 0 / 1 / 5 / exit 0
# left_filters_are_not_asked: int say(int n, int answer) { put(n); return answer; } void inner(void) { __try { RaiseException(0xE0000001, 0, 0, 0); } __except (say(1, 0)) { put(11); } } int main(void) { __try { __try { inner(); } __finally { put(3); RaiseException(0xE0000002, 0, 0, 0); } } __except (say(2, 1)) { put(4); } return 0; }
=> 0 1 / 2 / 3 / 2 / 4 / exit 0
# locals: void test(int a) { int b = a + 1; __try { __try { RaiseException(0xE0000001, 0, 0, 0); } __finally { b = b * 10; RaiseException(0xE0000002, 0, 0, 0); } } __except (GetExceptionCode() == 0xE0000002) { put(a); put(b); } } int main(void) { int x = 20; int y = 30; __try { test(4); put(11); } __except (1) { put(x + 1); put(y + 1); } put(x); put(y); return 0; }
=> 0 4 / 50 / 11 / 20 / 30 / exit 0
# nested_collision: void thrower(void) { __try { RaiseException(0xE0000002, 0, 0, 0); } __finally { put(2); RaiseException(0xE0000003, 0, 0, 0); } } int main(void) { __try { __try { RaiseException(0xE0000001, 0, 0, 0); } __finally { put(1); thrower(); put(11); } } __except (1) { put(GetExceptionCode() == 0xE0000003); } put(4); return 0; }
=> 0 1 / 2 / 1 / 4 / exit 0
# newer_goes_further: int main(void) { __try { __try { __try { RaiseException(0xE0000001, 0, 0, 0); } __finally { put(1); RaiseException(0xE0000002, 0, 0, 0); } } __except (GetExceptionCode() == 0xE0000001) { put(11); } put(12); } __except (GetExceptionCode() == 0xE0000002) { put(2); } return 0; }
=> 0 1 / 2 / exit 0
# noncontinuable: int decide(unsigned code) { if (code == 0xE0000002) return -1; return 1; } int main(void) { __try { __try { RaiseException(0xE0000001, 0, 0, 0); } __finally { put(1); RaiseException(0xE0000002, 1, 0, 0); put(11); } } __except (decide(GetExceptionCode())) { put(GetExceptionCode() == 0xC0000025); } return 0; }
=> 0 1 / 1 / exit 0
# one_deep: int main(void) { __try { __try { __try { RaiseException(0xE0000001, 0, 0, 0); } __finally { put(1); RaiseException(0xE0000002, 0, 0, 0); put(11); } } __except (GetExceptionCode() == 0xE0000002) { put(2); } put(3); } __except (1) { put(12); } return 0; }
=> 0 1 / 2 / 3 / exit 0
# routine_of_the_block: void thrower(void) { __try { RaiseException(0xE0000002, 0, 0, 0); } __finally { put(2); } } int main(void) { __try { __try { RaiseException(0xE0000001, 0, 0, 0); } __finally { put(1); thrower(); put(11); } } __except (1) { put(GetExceptionCode() == 0xE0000002); } return 0; }
=> 0 1 / 2 / 1 / exit 0
# same_target: int asked; int count(void) { asked = asked + 1; return 1; } int main(void) { __try { __try { RaiseException(0xE0000001, 0, 0, 0); } __finally { put(1); RaiseException(0xE0000002, 0, 0, 0); } } __except (count()) { put(asked); put(GetExceptionCode() == 0xE0000002); } put(3); return 0; }
=> 0 1 / 2 / 1 / 3 / exit 0
# three_deep: int main(void) { __try { __try { __try { __try { RaiseException(0xE0000001, 0, 0, 0); } __finally { put(1); RaiseException(0xE0000002, 0, 0, 0); } } __finally { put(2); RaiseException(0xE0000003, 0, 0, 0); } } __finally { put(3); RaiseException(0xE0000004, 0, 0, 0); } } __except (1) { put(GetExceptionCode() == 0xE0000004); } put(5); return 0; }
=> 0 1 / 2 / 3 / 1 / 5 / exit 0
# two_deep: int main(void) { __try { __try { __try { __try { RaiseException(0xE0000001, 0, 0, 0); } __finally { put(1); RaiseException(0xE0000002, 0, 0, 0); } } __finally { put(2); RaiseException(0xE0000003, 0, 0, 0); } } __except (GetExceptionCode() == 0xE0000003) { put(3); } } __except (1) { put(11); } return 0; }
=> 0 1 / 2 / 3 / exit 0
";
