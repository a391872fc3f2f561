//! The cases of rule 01, search.

/// The programs, in the order of their names.
pub const PROGRAMS: &str = r"
# block_is_not_guarded: int say(int n, int answer) { put(n); return answer; } int main(void) { __try { __try { RaiseException(0xE0000001, 0, 0, 0); } __except (say(1, 1)) { put(2); RaiseException(0xE0000002, 0, 0, 0); put(11); } } __except (say(3, 1)) { put(GetExceptionCode() == 0xE0000002); } return 0; }
=> 0 1 / 2 / 3 / 1 / exit 0
# call_after_the_section: int say(int n, int answer) { put(n); return answer; } void fail(void) { RaiseException(0xE0000001, 0, 0, 0); } void test(void) { __try { put(1); } __except (say(12, 1)) { put(13); } fail(); } int main(void) { __try { test(); } __except (say(2, 1)) { put(3); } return 0; }
=> 0 1 / 2 / 3 / exit 0
# call_before_the_section: int say(int n, int answer) { put(n); return answer; } void fail(void) { RaiseException(0xE0000001, 0, 0, 0); } void test(void) { fail(); __try { put(11); } __except (say(12, 1)) { put(13); } } int main(void) { __try { test(); } __except (say(1, 1)) { put(2); } return 0; }
=> 0 1 / 2 / exit 0
# call_in_a_block: int say(int n, int answer) { put(n); return answer; } void fail(int n) { RaiseException(0xE0000000 + n, 0, 0, 0); } int main(void) { __try { __try { fail(1); } __except (say(1, 1)) { fail(2); } } __except (say(2, 1)) { put(GetExceptionCode() == 0xE0000002); } return 0; }
=> 0 1 / 2 / 1 / exit 0
# filters_before_finally: int say(int n, int answer) { put(n); return answer; } void inner(void) { __try { RaiseException(0xE0000001, 0, 0, 0); } __finally { put(10); } } void outer(void) { __try { __try { inner(); } __finally { put(11); } } __except (say(1, 0)) { put(12); } } int main(void) { __try { outer(); } __except (say(2, 1)) { put(13); } return 0; }
=> 0 1 / 2 / 10 / 11 / 13 / exit 0
# finally_is_passed: int say(int n, int answer) { put(n); return answer; } int main(void) { __try { __try { __try { RaiseException(0xE0000001, 0, 0, 0); } __except (say(1, 0)) { put(11); } } __finally { put(2); } } __except (say(3, 1)) { put(4); } return 0; }
=> 0 1 / 3 / 2 / 4 / exit 0
# innermost_first: int say(int n, int answer) { put(n); return answer; } int main(void) { __try { __try { RaiseException(0xE0000001, 0, 0, 0); } __except (say(1, 1)) { put(2); } } __except (say(3, 1)) { put(4); } put(5); return 0; }
=> 0 1 / 2 / 5 / exit 0
# outward_after_zero: int say(int n, int answer) { put(n); return answer; } int main(void) { __try { __try { RaiseException(0xE0000001, 0, 0, 0); } __except (say(1, EXCEPTION_CONTINUE_SEARCH)) { put(2); } put(3); } __except (say(4, EXCEPTION_EXECUTE_HANDLER)) { put(5); } put(6); return 0; }
=> 0 1 / 4 / 5 / 6 / exit 0
# returned_callee: int say(int n, int answer) { put(n); return answer; } void guarded(void) { __try { put(1); } __except (say(11, 1)) { put(12); } } int main(void) { __try { guarded(); RaiseException(0xE0000001, 0, 0, 0); } __except (say(2, 1)) { put(3); } return 0; }
=> 0 1 / 2 / 3 / exit 0
# searched_anew: int say(int n, int answer) { put(n); return answer; } void fail(int n) { RaiseException(0xE0000000 + n, 0, 0, 0); } int main(void) { __try { fail(1); } __except (say(1, 1)) { put(2); } __try { __try { fail(2); } __except (say(3, 0)) { put(11); } } __except (say(4, 1)) { put(5); } __try { fail(3); } __except (say(6, 1)) { put(7); } return 0; }
=> 0 1 / 2 / 3 / 4 / 5 / 6 / 7 / exit 0
# siblings_are_not_asked: int say(int n, int answer) { put(n); return answer; } int main(void) { __try { __try { put(1); } __except (say(11, 1)) { put(12); } RaiseException(0xE0000001, 0, 0, 0); __try { put(13); } __except (say(14, 1)) { put(15); } } __except (say(2, 1)) { put(3); } return 0; }
=> 0 1 / 2 / 3 / exit 0
# statement_that_is_not_entered: int say(int n, int answer) { put(n); return answer; } void test(int guarded) { if (guarded) { __try { RaiseException(0xE0000001, 0, 0, 0); } __except (say(1, 1)) { put(2); } } else { RaiseException(0xE0000002, 0, 0, 0); } } int main(void) { __try { test(1); test(0); } __except (say(3, 1)) { put(4); } return 0; }
=> 0 1 / 2 / 3 / 4 / exit 0
# three_deep: int say(int n, int answer) { put(n); return answer; } int main(void) { __try { __try { __try { RaiseException(0xE0000001, 0, 0, 0); } __except (say(1, 0)) { put(11); } put(12); } __except (say(2, 0)) { put(13); } put(14); } __except (say(3, 1)) { put(15); } return 0; }
=> 0 1 / 2 / 3 / 15 / exit 0
# through_callers: int say(int n, int answer) { put(n); return answer; } void inner(void) { __try { RaiseException(0xE0000001, 0, 0, 0); } __except (say(1, 0)) { put(11); } put(12); } void middle(void) { __try { inner(); } __except (say(2, 0)) { put(13); } put(14); } int main(void) { __try { middle(); } __except (say(3, 1)) { put(15); } return 0; }
=> 0 1 / 2 / 3 / 15 / exit 0
";
