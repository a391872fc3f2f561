//! The cases of rule 21, vectored handlers.

/// The programs, in the order of their names.
pub const PROGRAMS: &str = r"
# before_all_filters: int watch(unsigned code, unsigned flags) { put(code == 0xE0000001); return 0; } int main(void) { AddVectoredExceptionHandler(1, watch); __try { RaiseException(0xE0000001, 0, 0, 0); } __except (put(2), 1) { put(3); } return 0; }
=> 0 1 / 2 / 3 / exit 0
# continues_a_raise: int watch(unsigned code, unsigned flags) { put(1); return -1; } int main(void) { AddVectoredExceptionHandler(1, watch); __try { RaiseException(0xE0000001, 0, 0, 0); put(2); } __except (put(11), 1) { put(12); } return 0; }
=> 0 1 / 2 / exit 0
# continues_an_access: int mend(unsigned code, unsigned flags) { put(code == 0xC0000005); protect((void *)0x20007000, 2); return -1; } int main(void) { int *page = (int *)0x20007000; AddVectoredExceptionHandler(1, mend); *page = 6; put(*page); return 0; }
=> 0 1 / 6 / exit 0
# exception_of_a_filter: int watch(unsigned code, unsigned flags) { put(code == 0xE0000002); return 0; } int careful(void) { __try { RaiseException(0xE0000002, 0, 0, 0); } __except (1) { put(2); } return 1; } int main(void) { AddVectoredExceptionHandler(1, watch); __try { RaiseException(0xE0000001, 0, 0, 0); } __except (careful()) { put(3); } return 0; }
=> 0 0 / 1 / 2 / 3 / exit 0
# exception_of_a_finally_block: int watch(unsigned code, unsigned flags) { put(code == 0xE0000002); return 0; } int main(void) { AddVectoredExceptionHandler(1, watch); __try { __try { RaiseException(0xE0000001, 0, 0, 0); } __finally { put(2); RaiseException(0xE0000002, 0, 0, 0); } } __except (put(3), 1) { put(GetExceptionCode() == 0xE0000002); } return 0; }
=> 0 0 / 3 / 2 / 1 / 3 / 1 / exit 0
# first_and_last: int a(unsigned code, unsigned flags) { put(1); return 0; } int b(unsigned code, unsigned flags) { put(2); return 0; } int c(unsigned code, unsigned flags) { put(3); return 0; } int d(unsigned code, unsigned flags) { put(4); return 0; } int main(void) { AddVectoredExceptionHandler(0, a); AddVectoredExceptionHandler(0, b); AddVectoredExceptionHandler(1, c); AddVectoredExceptionHandler(1, d); __try { RaiseException(0xE0000001, 0, 0, 0); } __except (1) { put(5); } return 0; }
=> 0 4 / 3 / 1 / 2 / 5 / exit 0
# handles_inside: int watch(unsigned code, unsigned flags) { put(code == 0xE0000002); if (code == 0xE0000002) return 0; __try { RaiseException(0xE0000002, 0, 0, 0); } __except (1) { put(2); } return 0; } int main(void) { AddVectoredExceptionHandler(1, watch); __try { RaiseException(0xE0000001, 0, 0, 0); } __except (1) { put(GetExceptionCode() == 0xE0000001); } return 0; }
=> 0 0 / 1 / 2 / 1 / exit 0
# locals_of_whom_it_interrupts: int busy(unsigned code, unsigned flags) { int a = 7; int b = a * a; int c = a * b; protect((void *)0x20008000, 2); put(a + b + c); return -1; } int main(void) { int x = 3; int y = 4; int z = 5; AddVectoredExceptionHandler(1, busy); x = *(int *)0x20008000 + x * y; put(x); put(y); put(z); return 0; }
=> 0 399 / 12 / 4 / 5 / exit 0
# noncontinuable: int watch(unsigned code, unsigned flags) { put(flags & 1); return 0; } int main(void) { AddVectoredExceptionHandler(1, watch); __try { RaiseException(0xE0000001, 1, 0, 0); } __except (1) { put(2); } __try { RaiseException(0xE0000002, 0, 0, 0); } __except (1) { put(3); } return 0; }
=> 0 1 / 2 / 0 / 3 / exit 0
# once_for_each_exception: int calls; int watch(unsigned code, unsigned flags) { calls = calls + 1; return 0; } int main(void) { AddVectoredExceptionHandler(1, watch); __try { __try { __try { RaiseException(0xE0000001, 0, 0, 0); } __except (put(1), 0) { put(11); } } __except (put(2), 0) { put(12); } } __except (put(3), 1) { put(calls); } return 0; }
=> 0 1 / 2 / 3 / 1 / exit 0
# one_continues: int a(unsigned code, unsigned flags) { put(1); return 0; } int b(unsigned code, unsigned flags) { put(2); return code == 0xE0000001 ? -1 : 0; } int c(unsigned code, unsigned flags) { put(3); return 0; } int main(void) { AddVectoredExceptionHandler(0, a); AddVectoredExceptionHandler(0, b); AddVectoredExceptionHandler(0, c); __try { RaiseException(0xE0000001, 0, 0, 0); put(4); RaiseException(0xE0000002, 0, 0, 0); } __except (1) { put(5); } return 0; }
=> 0 1 / 2 / 4 / 1 / 2 / 3 / 5 / exit 0
# removed: int watch(unsigned code, unsigned flags) { put(1); return 0; } void test(int n) { __try { RaiseException(0xE0000001, 0, 0, 0); } __except (1) { put(n); } } int main(void) { test(2); put(AddVectoredExceptionHandler(1, watch)); test(3); put(RemoveVectoredExceptionHandler(watch)); test(4); put(RemoveVectoredExceptionHandler(watch)); return 0; }
=> 0 2 / 1 / 1 / 3 / 1 / 4 / 0 / exit 0
# removes_itself: int once(unsigned code, unsigned flags) { put(RemoveVectoredExceptionHandler(once)); return 0; } int main(void) { int i; AddVectoredExceptionHandler(1, once); for (i = 2; i < 5; i++) { __try { RaiseException(0xE0000001, 0, 0, 0); } __except (1) { put(i); } } return 0; }
=> 0 1 / 2 / 3 / 4 / exit 0
# replacement_of_a_continued_one: int watch(unsigned code, unsigned flags) { put(code == 0xC0000025); return 0; } int decide(unsigned code) { return code == 0xC0000025 ? 1 : -1; } int main(void) { AddVectoredExceptionHandler(1, watch); __try { RaiseException(0xE0000001, 1, 0, 0); } __except (decide(GetExceptionCode())) { put(2); } return 0; }
=> 0 0 / 1 / 2 / exit 0
";
