//! The cases of rule 10, return.

/// The programs, in the order of their names.
pub const PROGRAMS: &str = r"
# block_that_calls: int inner(int n) { __try { return n; } __finally { put(n + 1); } return 11; } int outer(void) { __try { return 9; } __finally { put(inner(1)); put(inner(3)); } return 12; } int main(void) { put(outer()); return 0; }
=> 0 2 / 1 / 4 / 3 / 9 / exit 0
# from_main: int main(void) { __try { return 5; } __finally { put(1); } return 6; }
=> 0 1 / exit 5
# out_of_a_try_except: int say(int n, int answer) { put(n); return answer; } int test(void) { __try { return 1; } __except (say(11, 1)) { return 12; } return 13; } int main(void) { put(test()); return 0; }
=> 0 1 / exit 0
# out_of_an_except_block: int test(void) { __try { __try { RaiseException(0xE0000001, 0, 0, 0); } __except (1) { put(1); return 3; } put(11); } __finally { put(2 * AbnormalTermination()); } return 12; } int main(void) { put(test()); return 0; }
=> 0 1 / 2 / 3 / exit 0
# out_of_loops: int test(int wanted) { int i; int j; for (i = 0; i < 5; i++) { __try { for (j = 0; j < 5; j++) { if (i * 10 + j == wanted) return wanted; } } __finally { put(i); } } return -1; } int main(void) { put(test(13)); put(test(41 + 9)); return 0; }
=> 0 0 / 1 / 13 / 0 / 1 / 2 / 3 / 4 / -1 / exit 0
# then_an_exception: int test(void) { __try { return 1; } __finally { put(1); } return 11; } int main(void) { __try { test(); RaiseException(0xE0000001, 0, 0, 0); } __except (1) { put(2); } return 0; }
=> 0 1 / 2 / exit 0
# through_one_block: int test(void) { __try { return 2; } __finally { put(1); } return 11; } int main(void) { put(test()); return 0; }
=> 0 1 / 2 / exit 0
# through_three_blocks: int test(void) { __try { __try { __try { __try { return 4; } __finally { put(1); } } __except (1) { put(11); } } __finally { put(2); } } __finally { put(3); } return 12; } int main(void) { put(test()); return 0; }
=> 0 1 / 2 / 3 / 4 / exit 0
# through_two_blocks: int test(void) { __try { __try { return 3; } __finally { put(1); } put(11); } __finally { put(2); } return 12; } int main(void) { put(test()); return 0; }
=> 0 1 / 2 / 3 / exit 0
# value_comes_first: int test(int n) { int x = n; __try { return x + 1; } __finally { x = 50; put(x); } return 11; } int main(void) { put(test(4)); return 0; }
=> 0 50 / 5 / exit 0
# value_of_a_call: int inner(int n) { __try { return n * 2; } __finally { put(n); } return 11; } int outer(int n) { __try { return inner(n) + 1; } __finally { put(n + 1); } return 12; } int main(void) { put(outer(5)); return 0; }
=> 0 5 / 6 / 11 / exit 0
# without_a_value: void test(int n) { __try { if (n) return; put(1); } __finally { put(2); } put(3); } int main(void) { test(0); test(1); return 0; }
=> 0 1 / 2 / 3 / 2 / exit 0
";
