//! The cases of rule 08, activations.

/// The programs, in the order of their names.
pub const PROGRAMS: &str = r"
# block_of_each_activation: void test(int n) { int local = n * 10; __try { local = local + 1; if (n < 3) test(n + 1); else RaiseException(0xE0000001, 0, 0, 0); } __finally { put(local + AbnormalTermination()); } } int main(void) { __try { test(0); } __except (1) { put(1); } return 0; }
=> 0 32 / 22 / 12 / 2 / 1 / exit 0
# called_from_a_block: void test(int n) { int local = n * 3; __try { RaiseException(0xE0000001, 0, 0, 0); } __except (1) { if (n) test(n - 1); put(local); } } int main(void) { test(3); return 0; }
=> 0 0 / 3 / 6 / 9 / exit 0
# called_from_a_finally_block: void test(int n) { __try { __try { RaiseException(0xE0000001, 0, 0, 0); } __finally { put(n); if (n) test(n - 1); put(10 + n); } } __except (1) { put(20 + n); } } int main(void) { test(2); return 0; }
=> 0 2 / 1 / 0 / 10 / 20 / 11 / 21 / 12 / 22 / exit 0
# collided_in_a_recursion: void test(int n) { __try { __try { if (n == 3) RaiseException(0xE0000001, 0, 0, 0); test(n + 1); } __finally { put(n); if (n == 2) RaiseException(0xE0000002, 0, 0, 0); } } __except (GetExceptionCode() == 0xE0000002 ? n == 1 : n == 0) { put(10 + n); } } int main(void) { test(0); return 0; }
=> 0 3 / 2 / 1 / 11 / 0 / exit 0
# deep: int filters; int blocks; void test(int n) { __try { __try { if (n == 60) RaiseException(0xE0000001, 0, 0, 0); test(n + 1); } __finally { blocks = blocks + 1; } } __except (filters = filters + 1, 0) { put(11); } } int main(void) { __try { test(1); } __except (1) { put(filters); put(blocks); } return 0; }
=> 0 60 / 60 / exit 0
# filter_of_each_activation: void test(int n) { int local = n * 10; __try { if (n < 3) test(n + 1); else RaiseException(0xE0000001, 0, 0, 0); } __except (put(local), n == 0) { put(n + 5); } } int main(void) { test(0); return 0; }
=> 0 30 / 20 / 10 / 0 / 5 / exit 0
# outer_activations_go_on: int test(int n) { int sum = 0; __try { if (n == 4) RaiseException(0xE0000001, 0, 0, 0); sum = test(n + 1) + 1; } __except (n == 2) { sum = 100; } put(n); return sum; } int main(void) { put(test(0)); return 0; }
=> 0 2 / 1 / 0 / 102 / exit 0
# recursive_filter: int test(int n) { int answer = 0; __try { RaiseException(0xE0000000 + n, 0, 0, 0); } __except (n == 0 ? 1 : test(n - 1)) { put(n); answer = 1; } return answer; } int main(void) { put(test(3)); return 0; }
=> 0 0 / 1 / 2 / 3 / 1 / exit 0
# sections_of_each_activation: void test(int n, int odd) { __try { if (n == 0) RaiseException(0xE0000001, 0, 0, 0); if (odd) { __try { test(n - 1, 0); } __finally { put(10 + n); } } else { test(n - 1, 1); } } __finally { put(n); } } int main(void) { __try { test(3, 0); } __except (1) { put(4); } return 0; }
=> 0 0 / 1 / 12 / 2 / 3 / 4 / exit 0
# target_in_an_outer_activation: void test(int n) { __try { __try { if (n) test(n - 1); else RaiseException(0xE0000001, 0, 0, 0); put(10 + n); } __except (n == 1) { put(n); } } __finally { put(20 + n); } } int main(void) { test(2); return 0; }
=> 0 20 / 1 / 21 / 12 / 22 / exit 0
# two_branches: int leaves; void tree(int n) { if (n == 0) { leaves = leaves + 1; if (leaves % 2 == 0) RaiseException(0xE0000001, 0, 0, 0); return; } __try { tree(n - 1); tree(n - 1); put(100); } __except (n == 1) { put(leaves); } } int main(void) { tree(3); put(leaves); return 0; }
=> 0 2 / 4 / 100 / 6 / 8 / 100 / 100 / 8 / exit 0
";
