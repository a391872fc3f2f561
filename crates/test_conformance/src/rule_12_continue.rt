//! The cases of rule 12, continue.

/// The programs, in the order of their names.
pub const PROGRAMS: &str = r"
# inside_of_a_section: int main(void) { int i; __try { for (i = 0; i < 3; i++) { if (i == 1) continue; put(i); } } __finally { put(AbnormalTermination()); } return 0; }
=> 0 0 / 2 / 0 / exit 0
# of_a_do_loop: int say(int n, int answer) { put(n); return answer; } int main(void) { int i = 0; do { __try { i = i + 1; continue; } __finally { put(i); } put(11); } while (say(10 + i, i < 2)); return 0; }
=> 0 1 / 11 / 2 / 12 / exit 0
# of_the_outer_loop: int main(void) { int i; int j; for (i = 0; i < 2; i++) { __try { for (j = 0; j < 3; j++) { __try { if (j == 1) break; } __finally { put(j); } } if (i == 0) continue; put(5); } __finally { put(10 + i); } put(20 + i); } return 0; }
=> 0 0 / 1 / 10 / 0 / 1 / 5 / 11 / 21 / exit 0
# out_of_a_try_except: int say(int n, int answer) { put(n); return answer; } int main(void) { int i; for (i = 0; i < 3; i++) { __try { if (i == 1) continue; put(i); } __except (say(11, 1)) { put(12); } put(10 + i); } return 0; }
=> 0 0 / 10 / 2 / 12 / exit 0
# out_of_an_except_block: int main(void) { int i; for (i = 0; i < 3; i++) { __try { RaiseException(0xE0000000 + i, 0, 0, 0); } __except (1) { if (GetExceptionCode() == 0xE0000001) continue; put(i); } put(10 + i); } return 0; }
=> 0 0 / 10 / 2 / 12 / exit 0
# through_one_block: int main(void) { int i; for (i = 0; i < 3; i++) { __try { if (i == 1) continue; put(i); } __finally { put(10 + i); } put(20 + i); } return 0; }
=> 0 0 / 10 / 20 / 11 / 2 / 12 / 22 / exit 0
# through_two_blocks: int main(void) { int i = 0; while (i < 2) { i = i + 1; __try { __try { if (i == 1) continue; } __finally { put(i); } put(10 + i); } __finally { put(20 + i); } put(30 + i); } return 0; }
=> 0 1 / 21 / 2 / 12 / 22 / 32 / exit 0
";
