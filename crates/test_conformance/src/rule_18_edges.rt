//! The cases of rule 18, edges.

/// The programs, in the order of their names.
pub const PROGRAMS: &str = r"
# argument: int zero; void called(int n) { put(n); } int main(void) { __try { called(5 / zero); put(11); } __except (1) { put(1); } return 0; }
=> 0 1 / exit 0
# assignment: int zero; int x = 3; int main(void) { __try { x = 5 / zero; } __except (1) { put(x); } return 0; }
=> 0 3 / exit 0
# call_that_never_returns: void test(int n) { __try { RaiseException(0xE0000001, 0, 0, 0); } __finally { put(n); } } void again(void) { __try { test(1); } __except (1) { RaiseException(0xE0000002, 0, 0, 0); } } int main(void) { __try { again(); } __except (1) { put(GetExceptionCode() == 0xE0000002); } return 0; }
=> 0 1 / 1 / exit 0
# condition: int zero; int main(void) { int n = 0; __try { if (n == 0 && 5 / zero == 1) put(11); put(12); } __except (1) { put(1); } __try { while (n < 2) { n = n + 1; put(10 / (2 - n)); } } __except (1) { put(n); } return 0; }
=> 0 1 / 10 / 2 / exit 0
# empty_except_block: int main(void) { __try { put(1); RaiseException(0xE0000001, 0, 0, 0); put(11); } __except (1) { } put(2); return 0; }
=> 0 1 / 2 / exit 0
# empty_finally_block: int main(void) { __try { __try { put(1); RaiseException(0xE0000001, 0, 0, 0); } __finally { } put(11); } __except (1) { put(2); } return 0; }
=> 0 1 / 2 / exit 0
# empty_section_of_a_try_except: int main(void) { __try { } __except (put(11), 1) { put(12); } put(1); return 0; }
=> 0 1 / exit 0
# empty_section_of_a_try_finally: int main(void) { __try { } __finally { put(AbnormalTermination()); } put(1); return 0; }
=> 0 0 / 1 / exit 0
# first_call: void fail(void) { RaiseException(0xE0000001, 0, 0, 0); } int main(void) { __try { fail(); put(11); } __except (1) { put(1); } return 0; }
=> 0 1 / exit 0
# first_statement: int *nowhere; int main(void) { __try { *nowhere = 1; put(11); } __except (1) { put(1); } return 0; }
=> 0 1 / exit 0
# in_a_branch: void fail(int n) { RaiseException(0xE0000000 + n, 0, 0, 0); } void test(int n) { if (n % 2) __try { fail(n); } __except (1) { put(n); } else __try { if (n) fail(n); } __finally { put(10 + n); } } int main(void) { test(1); test(0); __try { test(2); } __except (1) { put(2); } return 0; }
=> 0 1 / 10 / 12 / 2 / exit 0
# last_call: void fail(void) { RaiseException(0xE0000001, 0, 0, 0); } int main(void) { __try { put(1); fail(); } __except (1) { put(2); } return 0; }
=> 0 1 / 2 / exit 0
# last_call_before_another_section: int say(int n, int answer) { put(n); return answer; } void fail(int n) { RaiseException(0xE0000000 + n, 0, 0, 0); } int main(void) { __try { fail(1); } __except (say(1, 1)) { } __try { fail(2); } __except (say(2, 1)) { } __try { fail(3); } __except (say(3, 1)) { } return 0; }
=> 0 1 / 2 / 3 / exit 0
# last_in_the_function: void fail(void) { RaiseException(0xE0000001, 0, 0, 0); } void test(void) { __try { fail(); } __except (1) { put(1); } } int main(void) { test(); put(2); return 0; }
=> 0 1 / 2 / exit 0
# last_statement: int *nowhere; int main(void) { __try { put(1); *nowhere = 1; } __except (1) { put(2); } return 0; }
=> 0 1 / 2 / exit 0
# part_that_is_not_evaluated: int zero; int *nowhere; int main(void) { __try { put(zero != 0 && 5 / zero == 1); put(zero == 0 || *nowhere == 1); put(zero ? *nowhere : 3); } __except (1) { put(11); } return 0; }
=> 0 0 / 1 / 3 / exit 0
# section_that_is_a_statement: int main(void) { __try { __try { __try { __try { put(1); } __finally { put(2); } } __except (put(11), 1) { put(12); } } __finally { put(3); } } __except (put(13), 1) { put(14); } return 0; }
=> 0 1 / 2 / 3 / exit 0
";
