//! The cases of rule 11, break.

/// The programs, in the order of their names.
pub const PROGRAMS: &str = r"
# inner_section_only: int main(void) { __try { do { __try { break; } __finally { put(AbnormalTermination()); } } while (1); put(2); } __finally { put(AbnormalTermination()); } return 0; }
=> 0 1 / 2 / 0 / exit 0
# inside_of_a_section: int main(void) { int i; __try { for (i = 0; i < 5; i++) { if (i == 3) break; } put(i); } __finally { put(AbnormalTermination()); } return 0; }
=> 0 3 / 0 / exit 0
# locals: int main(void) { int x = 1; int y = 2; int i; for (i = 0; i < 9; i++) { __try { x = x * 2; if (x == 16) break; } __finally { y = y + x; } } put(x); put(y); put(i); return 0; }
=> 0 16 / 32 / 3 / exit 0
# of_two_loops: int main(void) { int i; int j = 0; for (i = 0; i < 3; i++) { __try { while (1) { __try { j = j + 1; if (j % 2 == 0) break; } __finally { put(j); } } if (i == 1) break; } __finally { put(10 + i); } } put(20 + i); return 0; }
=> 0 1 / 2 / 10 / 3 / 4 / 11 / 21 / exit 0
# out_of_a_try_except: int say(int n, int answer) { put(n); return answer; } int main(void) { int i; for (i = 0; i < 5; i++) { __try { if (i == 2) break; put(i); } __except (say(11, 1)) { put(12); } } put(i); return 0; }
=> 0 0 / 1 / 2 / exit 0
# out_of_an_except_block: int main(void) { int i; for (i = 0; i < 5; i++) { __try { if (i == 2) RaiseException(0xE0000001, 0, 0, 0); put(i); } __except (1) { break; } } put(i + 10); return 0; }
=> 0 0 / 1 / 12 / exit 0
# through_one_block: int main(void) { int i; for (i = 0; i < 5; i++) { __try { if (i == 2) break; } __finally { put(i); } } put(10 + i); return 0; }
=> 0 0 / 1 / 2 / 12 / exit 0
# through_two_blocks: int main(void) { while (1) { __try { __try { put(1); break; } __finally { put(2); } put(11); } __finally { put(3); } put(12); } put(4); return 0; }
=> 0 1 / 2 / 3 / 4 / exit 0
";
