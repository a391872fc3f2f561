//! The cases of rule 20, many sections.

/// The programs, in the order of their names.
pub const PROGRAMS: &str = r"
# between_sections: void fail(int n, int wanted) { if (n == wanted) RaiseException(0xE0000001, 0, 0, 0); } void test(int n) { __try { fail(n, 1); __try { fail(n, 2); } __except (1) { put(2); } fail(n, 3); __try { fail(n, 4); } __except (1) { put(4); } fail(n, 5); } __except (1) { put(10 + n); } } int main(void) { int i; for (i = 1; i < 6; i++) test(i); return 0; }
=> 0 11 / 2 / 13 / 4 / 15 / exit 0
# blocks_one_after_another: void fail(int n, int wanted) { if (n == wanted) RaiseException(0xE0000001, 0, 0, 0); } void test(int n) { __try { fail(n, 1); } __finally { put(1); } __try { fail(n, 2); } __finally { put(2); } __try { fail(n, 3); } __finally { put(3); } fail(n, 4); __try { fail(n, 5); } __finally { put(5); } } int main(void) { int i; for (i = 1; i < 6; i++) { __try { test(i); } __except (1) { put(10 + i); } } return 0; }
=> 0 1 / 11 / 1 / 2 / 12 / 1 / 2 / 3 / 13 / 1 / 2 / 3 / 14 / 1 / 2 / 3 / 5 / 15 / exit 0
# in_blocks: void fail(int n, int wanted) { if (n == wanted) RaiseException(0xE0000000 + n, 0, 0, 0); } void test(int n) { __try { __try { RaiseException(0xE000000F, 0, 0, 0); } __except (1) { __try { fail(n, 1); } __except (1) { put(1); } fail(n, 2); __try { fail(n, 3); } __finally { put(3); } } __try { put(4); } __finally { fail(n, 4); __try { fail(n, 5); } __except (1) { put(5); } } } __except (1) { put(10 + n); } } int main(void) { int i; for (i = 1; i < 6; i++) test(i); return 0; }
=> 0 1 / 3 / 4 / 12 / 3 / 13 / 3 / 4 / 14 / 3 / 4 / 5 / exit 0
# nested: int wanted; int decide(int n) { return n == wanted; } void test(void) { __try { __try { __try { __try { __try { __try { RaiseException(0xE0000001, 0, 0, 0); } __except (decide(1)) { put(1); } put(11); } __except (decide(2)) { put(2); } put(12); } __except (decide(3)) { put(3); } put(13); } __except (decide(4)) { put(4); } put(14); } __except (decide(5)) { put(5); } put(15); } __except (decide(6)) { put(6); } put(16); } int main(void) { for (wanted = 6; wanted > 3; wanted--) test(); return 0; }
=> 0 6 / 16 / 5 / 15 / 16 / 4 / 14 / 15 / 16 / exit 0
# nested_blocks: int wanted; void test(void) { __try { __try { __try { __try { __try { __try { RaiseException(0xE0000001, 0, 0, 0); } __finally { put(1); } } __except (wanted == 2) { put(2); } } __finally { put(3); } } __except (wanted == 4) { put(4); } } __finally { put(5); } } __except (wanted == 6) { put(6); } } int main(void) { for (wanted = 2; wanted < 7; wanted = wanted + 2) test(); return 0; }
=> 0 1 / 2 / 3 / 5 / 1 / 3 / 4 / 5 / 1 / 3 / 5 / 6 / exit 0
# of_many_functions: void fail(int n, int wanted) { if (n == wanted) RaiseException(0xE0000001, 0, 0, 0); } void a(int n) { __try { fail(n, 1); } __except (1) { put(1); } } void b(int n) { __try { fail(n, 2); a(n); } __finally { put(2); } } void c(int n) { __try { fail(n, 3); b(n); } __except (1) { put(3); } } void d(int n) { __try { fail(n, 4); c(n); } __finally { put(4); } } int main(void) { int i; for (i = 1; i < 5; i++) { __try { d(i); } __except (1) { put(5); } } return 0; }
=> 0 1 / 2 / 4 / 2 / 3 / 4 / 3 / 4 / 4 / 5 / exit 0
# one_after_another: void fail(int n, int wanted) { if (n == wanted) RaiseException(0xE0000001, 0, 0, 0); } void test(int n) { __try { fail(n, 1); } __except (1) { put(1); } __try { fail(n, 2); } __except (1) { put(2); } __try { fail(n, 3); } __except (1) { put(3); } __try { fail(n, 4); } __except (1) { put(4); } __try { fail(n, 5); } __except (1) { put(5); } __try { fail(n, 6); } __except (1) { put(6); } __try { fail(n, 7); } __except (1) { put(7); } __try { fail(n, 8); } __except (1) { put(8); } } int main(void) { int i; for (i = 8; i > 0; i--) test(i); return 0; }
=> 0 8 / 7 / 6 / 5 / 4 / 3 / 2 / 1 / exit 0
";
