//! The cases of rule 17, leaf functions.

/// The programs, in the order of their names.
pub const PROGRAMS: &str = r"
# called_by_a_filter: int asked; int get(int *from) { return *from; } int decide(void) { asked = asked + 1; if (asked > 1) return 1; return get((int *)0x20005000); } int main(void) { __try { RaiseException(0xE0000001, 0, 0, 0); } __except (decide()) { put(asked); put(GetExceptionCode() == 0xC0000005); } return 0; }
=> 0 2 / 1 / exit 0
# called_last: void set(int *to) { *to = 1; } void test(void) { __try { set((int *)0x20005000); } __except (put(1), 1) { put(2); } } int main(void) { __try { test(); put(3); } __except (1) { put(11); } return 0; }
=> 0 1 / 2 / 3 / exit 0
# continued: int open(void) { protect((void *)0x20006000, 2); return -1; } int add(int a, int *b, int c) { return a + *b + c; } int main(void) { __try { put(add(10, (int *)0x20006000, 5)); } __except (open()) { put(11); } return 0; }
=> 0 15 / exit 0
# division: int divide(int a, int b) { return a / b; } int main(void) { int x = 4; __try { put(divide(7, 2)); put(divide(7, x - 4)); } __except (GetExceptionCode() == 0xC0000094) { put(x); } return 0; }
=> 0 3 / 4 / exit 0
# read: int get(int *from) { return *from; } int main(void) { __try { put(get((int *)0x20005000)); } __except (1) { put(GetExceptionCode() == 0xC0000005); } return 0; }
=> 0 1 / exit 0
# under_a_finally_block: int get(int *from) { return *from; } int test(int n) { __try { return get((int *)0x20005000) + n; } __finally { put(n + AbnormalTermination()); } return 11; } int main(void) { __try { put(test(4)); } __except (1) { put(6); } return 0; }
=> 0 5 / 6 / exit 0
# write: void set(int *to, int value) { *to = value; } int main(void) { int x = 3; __try { set((int *)0x20005000, 7); put(11); } __except (put(GetExceptionInformation()->ExceptionRecord->ExceptionInformation[0]), 1) { put(x); } return 0; }
=> 0 1 / 3 / exit 0
";
