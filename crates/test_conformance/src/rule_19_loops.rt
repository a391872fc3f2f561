//! The cases of rule 19, loops.

/// The programs, in the order of their names.
pub const PROGRAMS: &str = r"
# block_of_each_round: int main(void) { int i = 0; while (i < 3) { __try { i = i + 1; } __finally { put(i); } } put(10); return 0; }
=> 0 1 / 2 / 3 / 10 / exit 0
# condition_of_a_loop_in_a_section: int zero = 3; int main(void) { int n = 0; __try { while (12 / zero > 0) { zero = zero - 1; n = n + 1; } put(11); } __except (1) { put(n); } return 0; }
=> 0 3 / exit 0
# each_round: void fail(int n) { RaiseException(0xE0000000 + n, 0, 0, 0); } int main(void) { int i; for (i = 0; i < 4; i++) { __try { if (i % 2) fail(i); put(i); } __except (1) { put(10 + i); } } return 0; }
=> 0 0 / 11 / 2 / 13 / exit 0
# in_a_finally_block: void fail(int n) { RaiseException(0xE0000000 + n, 0, 0, 0); } int main(void) { int i; __try { __try { fail(9); } __finally { for (i = 0; i < 3; i++) { __try { fail(i); } __except (1) { put(i); } } } } __except (1) { put(GetExceptionCode() == 0xE0000009); } return 0; }
=> 0 0 / 1 / 2 / 1 / exit 0
# loop_in_a_section: void fail(int n) { RaiseException(0xE0000000 + n, 0, 0, 0); } int main(void) { int i = 0; __try { for (i = 0; i < 10; i++) { if (i == 3) fail(i); put(i); } } __except (1) { put(10 + i); } return 0; }
=> 0 0 / 1 / 2 / 13 / exit 0
# many_rounds: void fail(int n) { RaiseException(0xE0000000 + n, 0, 0, 0); } int main(void) { int i; int blocks = 0; int handled = 0; for (i = 0; i < 300; i++) { __try { __try { fail(i); } __finally { blocks = blocks + 1; } } __except (1) { handled = handled + (GetExceptionCode() == 0xE0000000 + i); } } put(blocks); put(handled); return 0; }
=> 0 300 / 300 / exit 0
# of_three_levels: void fail(int n) { RaiseException(0xE0000000 + n, 0, 0, 0); } int main(void) { int i; int j; int sum = 0; for (i = 0; i < 3; i++) { __try { for (j = 0; j < 4; j++) { __try { if (j == 1) fail(1); if (j == 2 && i == 1) fail(2); sum = sum + 1; } __except (GetExceptionCode() == 0xE0000001) { sum = sum + 10; } } } __except (1) { sum = sum + 100; } } put(sum); return 0; }
=> 0 137 / exit 0
# retry: int attempts; void work(void) { attempts = attempts + 1; if (attempts < 4) RaiseException(0xE0000001, 0, 0, 0); } int main(void) { int done = 0; do { __try { work(); done = 1; } __except (1) { put(attempts); } } while (!done); put(attempts); return 0; }
=> 0 1 / 2 / 3 / 4 / exit 0
";
