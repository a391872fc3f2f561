//! The cases of rule 13, abnormal termination.

/// The programs, in the order of their names.
pub const PROGRAMS: &str = r"
# after_a_block_that_raised: int main(void) { __try { __try { __try { put(1); } __finally { put(AbnormalTermination()); RaiseException(0xE0000001, 0, 0, 0); } } __finally { put(10 + AbnormalTermination()); } } __except (1) { put(2); } return 0; }
=> 0 1 / 0 / 11 / 2 / exit 0
# as_a_condition: int balance = 10; void move(int amount, int failing) { __try { balance = balance - amount; if (failing) RaiseException(0xE0000001, 0, 0, 0); } __finally { if (AbnormalTermination()) balance = balance + amount; } } int main(void) { move(3, 0); put(balance); __try { move(5, 1); } __except (1) { put(balance); } return 0; }
=> 0 7 / 7 / exit 0
# at_the_end: int main(void) { __try { put(1); } __finally { put(AbnormalTermination()); } return 0; }
=> 0 1 / 0 / exit 0
# by_a_break: int main(void) { int i; for (i = 0; i < 3; i++) { __try { if (i == 1) break; } __finally { put(AbnormalTermination()); } } return 0; }
=> 0 0 / 1 / exit 0
# by_a_break_through_two: int main(void) { while (1) { __try { __try { break; } __finally { put(AbnormalTermination()); } } __finally { put(10 + AbnormalTermination()); } } put(2); return 0; }
=> 0 1 / 11 / 2 / exit 0
# by_a_continue: int main(void) { int i; for (i = 0; i < 3; i++) { __try { if (i == 1) continue; } __finally { put(AbnormalTermination()); } } return 0; }
=> 0 0 / 1 / 0 / exit 0
# by_a_continue_through_two: int main(void) { int i; for (i = 0; i < 2; i++) { __try { __try { if (i == 0) continue; } __finally { put(AbnormalTermination()); } } __finally { put(10 + AbnormalTermination()); } } return 0; }
=> 0 1 / 11 / 0 / 10 / exit 0
# by_a_leave: int main(void) { __try { __leave; } __finally { put(AbnormalTermination()); } return 0; }
=> 0 0 / exit 0
# by_a_return: int test(void) { __try { return 2; } __finally { put(AbnormalTermination()); } return 11; } int main(void) { put(test()); return 0; }
=> 0 1 / 2 / exit 0
# by_a_return_at_the_end: void test(int n) { __try { put(n); return; } __finally { put(AbnormalTermination()); } } int main(void) { test(3); return 0; }
=> 0 3 / 1 / exit 0
# by_a_return_through_two: int test(void) { __try { __try { return 2; } __finally { put(AbnormalTermination()); } } __finally { put(10 + AbnormalTermination()); } return 12; } int main(void) { put(test()); return 0; }
=> 0 1 / 11 / 2 / exit 0
# by_an_exception: int main(void) { __try { __try { RaiseException(0xE0000001, 0, 0, 0); } __finally { put(AbnormalTermination()); } } __except (1) { put(2); } return 0; }
=> 0 1 / 2 / exit 0
# each_section_by_itself: int main(void) { __try { __try { __try { put(1); } __finally { put(AbnormalTermination()); } RaiseException(0xE0000001, 0, 0, 0); } __finally { put(AbnormalTermination()); } } __except (1) { put(2); } return 0; }
=> 0 1 / 0 / 1 / 2 / exit 0
# handled_inside: int main(void) { __try { __try { RaiseException(0xE0000001, 0, 0, 0); } __except (1) { put(1); } } __finally { put(AbnormalTermination()); } return 0; }
=> 0 1 / 0 / exit 0
# left_inside: int callee(void) { __try { return 2; } __finally { put(AbnormalTermination()); } return 11; } int main(void) { __try { put(callee()); } __finally { put(AbnormalTermination()); } return 0; }
=> 0 1 / 2 / 0 / exit 0
# statement_in_the_block: int main(void) { __try { __try { RaiseException(0xE0000001, 0, 0, 0); } __finally { put(AbnormalTermination()); __try { put(2); } __finally { put(10 + AbnormalTermination()); } put(20 + AbnormalTermination()); } } __except (1) { put(3); } return 0; }
=> 0 1 / 2 / 10 / 21 / 3 / exit 0
";
