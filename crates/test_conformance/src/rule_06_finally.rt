//! The cases of rule 06, finally.

/// The programs, in the order of their names.
pub const PROGRAMS: &str = r"
# after_an_exception: int main(void) { __try { __try { put(1); RaiseException(0xE0000001, 0, 0, 0); put(11); } __finally { put(2); } put(12); } __except (1) { put(3); } put(4); return 0; }
=> 0 1 / 2 / 3 / 4 / exit 0
# at_the_end_of_the_section: int main(void) { put(1); __try { put(2); } __finally { put(3); } put(4); return 0; }
=> 0 1 / 2 / 3 / 4 / exit 0
# callees_first: void d(void) { __try { RaiseException(0xE0000001, 0, 0, 0); } __finally { put(1); } } void c(void) { __try { d(); } __finally { put(2); } } void b(void) { __try { c(); } __finally { put(3); } } int main(void) { __try { b(); } __except (1) { put(4); } return 0; }
=> 0 1 / 2 / 3 / 4 / exit 0
# continued_in_a_finally_block: int decide(unsigned code) { put(code == 0xE0000002); return code == 0xE0000002 ? -1 : 1; } int main(void) { __try { __try { RaiseException(0xE0000001, 0, 0, 0); } __finally { put(2); RaiseException(0xE0000002, 0, 0, 0); put(3); } } __except (decide(GetExceptionCode())) { put(GetExceptionCode() == 0xE0000001); } return 0; }
=> 0 0 / 2 / 1 / 3 / 1 / exit 0
# finally_in_a_finally_block: int main(void) { __try { __try { RaiseException(0xE0000001, 0, 0, 0); } __finally { __try { put(1); } __finally { put(2); } put(3); } } __except (1) { put(4); } return 0; }
=> 0 1 / 2 / 3 / 4 / exit 0
# handled_during_an_unwinding: int main(void) { __try { __try { __try { RaiseException(0xE0000001, 0, 0, 0); } __finally { __try { RaiseException(0xE0000002, 0, 0, 0); } __except (1) { put(1); } put(2); } } __finally { put(3); } } __except (1) { put(GetExceptionCode() == 0xE0000001); } return 0; }
=> 0 1 / 2 / 3 / 1 / exit 0
# handled_in_a_routine_of_the_block: void careful(void) { __try { __try { RaiseException(0xE0000002, 0, 0, 0); } __finally { put(1); } } __except (1) { put(2); } } int main(void) { __try { __try { RaiseException(0xE0000001, 0, 0, 0); } __finally { careful(); put(3); } } __except (1) { put(GetExceptionCode() == 0xE0000001); } return 0; }
=> 0 1 / 2 / 3 / 1 / exit 0
# in_an_except_block: int main(void) { __try { __try { RaiseException(0xE0000001, 0, 0, 0); } __except (1) { __try { put(1); RaiseException(0xE0000002, 0, 0, 0); } __finally { put(2); } put(11); } } __except (1) { put(3); } return 0; }
=> 0 1 / 2 / 3 / exit 0
# innermost_first: int main(void) { __try { __try { __try { __try { RaiseException(0xE0000001, 0, 0, 0); } __finally { put(1); } } __finally { put(2); } } __finally { put(3); } } __except (1) { put(4); } return 0; }
=> 0 1 / 2 / 3 / 4 / exit 0
# loop_in_the_block: int main(void) { int i; __try { __try { RaiseException(0xE0000001, 0, 0, 0); } __finally { for (i = 0; i < 9; i++) { if (i == 1) continue; if (i == 3) break; put(i); } put(i); } } __except (1) { put(4); } return 0; }
=> 0 0 / 2 / 3 / 4 / exit 0
# outside_of_the_handler: int main(void) { __try { __try { RaiseException(0xE0000001, 0, 0, 0); } __except (1) { put(1); } put(2); } __finally { put(AbnormalTermination()); } put(3); return 0; }
=> 0 1 / 2 / 0 / 3 / exit 0
# outside_of_the_handler_in_a_caller: void callee(void) { __try { __try { RaiseException(0xE0000001, 0, 0, 0); } __finally { put(1); } } __except (1) { put(2); } } int main(void) { __try { callee(); put(3); } __finally { put(4); } return 0; }
=> 0 1 / 2 / 3 / 4 / exit 0
# raise_after_a_normal_end: int say(int n, int answer) { put(n); return answer; } int main(void) { __try { __try { put(1); } __finally { put(2); RaiseException(0xE0000001, 0, 0, 0); put(11); } put(12); } __except (say(3, 1)) { put(4); } return 0; }
=> 0 1 / 2 / 3 / 4 / exit 0
# section_that_has_ended: int main(void) { __try { __try { put(1); } __finally { put(2); } RaiseException(0xE0000001, 0, 0, 0); } __except (1) { put(3); } return 0; }
=> 0 1 / 2 / 3 / exit 0
# section_that_is_not_entered: int main(void) { __try { RaiseException(0xE0000001, 0, 0, 0); __try { put(11); } __finally { put(12); } } __except (1) { put(1); } return 0; }
=> 0 1 / exit 0
# statement_in_a_finally_block: int main(void) { __try { put(1); } __finally { __try { put(2); RaiseException(0xE0000001, 0, 0, 0); put(11); } __except (1) { put(3); } put(4); } put(5); return 0; }
=> 0 1 / 2 / 3 / 4 / 5 / exit 0
";
