//! The cases of rule 09, leave.

/// The programs, in the order of their names.
pub const PROGRAMS: &str = r"
# as_the_first_statement: int main(void) { __try { __leave; } __finally { put(1); } __try { __leave; } __except (1) { put(11); } put(2); return 0; }
=> 0 1 / 2 / exit 0
# as_the_last_statement: int main(void) { __try { __try { put(1); __leave; } __except (1) { put(11); } put(2); __leave; } __finally { put(AbnormalTermination()); } return 0; }
=> 0 1 / 2 / 0 / exit 0
# in_a_finally_block: int main(void) { __try { __try { RaiseException(0xE0000001, 0, 0, 0); } __finally { __try { put(1); __leave; put(11); } __except (1) { put(12); } put(2); } } __except (1) { put(3); } return 0; }
=> 0 1 / 2 / 3 / exit 0
# in_a_try_except: int say(int n, int answer) { put(n); return answer; } int main(void) { __try { put(1); __leave; put(11); } __except (say(12, 1)) { put(13); } put(2); return 0; }
=> 0 1 / 2 / exit 0
# in_a_try_finally: int main(void) { __try { put(1); __leave; put(11); } __finally { put(2); } put(3); return 0; }
=> 0 1 / 2 / 3 / exit 0
# in_an_except_block: int main(void) { __try { __try { RaiseException(0xE0000001, 0, 0, 0); } __except (1) { put(1); __leave; put(11); } put(12); } __finally { put(AbnormalTermination()); } put(2); return 0; }
=> 0 1 / 0 / 2 / exit 0
# innermost_section: int main(void) { __try { __try { __leave; put(11); } __finally { put(1); } put(2); __leave; put(12); } __finally { put(3); } put(4); return 0; }
=> 0 1 / 2 / 3 / 4 / exit 0
# is_no_abnormal_termination: void test(int leave) { __try { if (leave) __leave; put(1); } __finally { put(AbnormalTermination()); } } int main(void) { test(1); test(0); return 0; }
=> 0 0 / 1 / 0 / exit 0
# out_of_a_loop: int main(void) { int i = 0; __try { while (1) { int j; for (j = 0; j < 10; j++) { i = i + 1; if (i == 25) __leave; } } } __finally { put(i); } return 0; }
=> 0 25 / exit 0
# then_an_exception: int main(void) { __try { __try { __leave; } __except (put(11), 1) { put(12); } RaiseException(0xE0000001, 0, 0, 0); } __except (put(1), 1) { put(2); } return 0; }
=> 0 1 / 2 / exit 0
";
