//! The cases of rule 05, exceptions in filters.

/// The programs, in the order of their names.
pub const PROGRAMS: &str = r"
# accepted_by_an_inner_statement: int raised; int outer(void) { raised = raised + 1; put(raised); RaiseException(0xE0000002, 0, 0, 0); return 1; } int main(void) { __try { __try { RaiseException(0xE0000001, 0, 0, 0); } __except (GetExceptionCode() == 0xE0000002) { put(2); } put(3); } __except (outer()) { put(11); } put(4); return 0; }
=> 0 1 / 2 / 3 / 4 / exit 0
# asks_the_same_filter: int asked; int bad(void) { asked = asked + 1; put(asked); if (asked == 1) RaiseException(0xE0000002, 0, 0, 0); put(10 + asked); return asked == 2; } int main(void) { __try { RaiseException(0xE0000001, 0, 0, 0); } __except (bad()) { put(GetExceptionCode() == 0xE0000002); } return 0; }
=> 0 1 / 2 / 12 / 1 / exit 0
# code_after_a_handled_one: int careful(int n) { __try { RaiseException(0xE0000002, 0, 0, 0); } __except (GetExceptionCode() == 0xE0000002) { put(n); } return 1; } int main(void) { __try { RaiseException(0xE0000001, 0, 0, 0); } __except (careful(1), put(GetExceptionCode() == 0xE0000001), careful(2)) { put(GetExceptionCode() == 0xE0000001); } return 0; }
=> 0 1 / 1 / 2 / 1 / exit 0
# continued: int asked; int decide(unsigned code) { asked = asked + 1; put(asked); if (code == 0xE0000002) return -1; RaiseException(0xE0000002, 0, 0, 0); put(3); return 1; } int main(void) { __try { RaiseException(0xE0000001, 0, 0, 0); put(11); } __except (decide(GetExceptionCode())) { put(GetExceptionCode() == 0xE0000001); } return 0; }
=> 0 1 / 2 / 3 / 1 / exit 0
# finally_in_a_routine_of_the_filter: int asked; int bad(void) { asked = asked + 1; if (asked == 2) return 0; __try { RaiseException(0xE0000002, 0, 0, 0); } __finally { put(AbnormalTermination()); } return 0; } void callee(void) { __try { RaiseException(0xE0000001, 0, 0, 0); } __finally { put(2); } } int main(void) { __try { __try { callee(); } __except (bad()) { put(11); } } __except (GetExceptionCode() == 0xE0000002) { put(3); } return 0; }
=> 0 1 / 2 / 3 / exit 0
# handled_in_the_filter: int careful(void) { __try { RaiseException(0xE0000002, 0, 0, 0); } __except (1) { put(1); } return 1; } int main(void) { __try { RaiseException(0xE0000001, 0, 0, 0); } __except (careful()) { put(GetExceptionCode() == 0xE0000001); } put(2); return 0; }
=> 0 1 / 1 / 2 / exit 0
# in_the_filter_itself: int asked; int main(void) { __try { __try { RaiseException(0xE0000001, 0, 0, 0); } __except (asked = asked + 1, asked == 1 ? *(int *)0x20000000 : 0) { put(11); } } __except (GetExceptionCode() == 0xC0000005) { put(asked); } return 0; }
=> 0 2 / exit 0
# inner_filters_first: int running; int outer(void) { put(2); if (running) return 0; running = 1; RaiseException(0xE0000002, 0, 0, 0); return 0; } void callee(void) { __try { RaiseException(0xE0000001, 0, 0, 0); } __except (put(1), 0) { put(11); } } int main(void) { __try { __try { callee(); } __except (outer()) { put(12); } } __except (put(3), 1) { put(GetExceptionCode() == 0xE0000002); } return 0; }
=> 0 1 / 2 / 1 / 2 / 3 / 1 / exit 0
# jump_in_a_routine: int decide(int n) { __try { return n == 2; } __finally { put(AbnormalTermination()); } return 1; } int main(void) { __try { __try { RaiseException(0xE0000001, 0, 0, 0); } __except (decide(1)) { put(11); } } __except (decide(2)) { put(2); } return 0; }
=> 0 1 / 1 / 2 / exit 0
# opened_while_asked: int open(void) { put(2); protect((void *)0x20000000, 2); return -1; } int look(void) { int found = 9; __try { put(1); found = *(int *)0x20000000; } __except (open()) { put(11); } put(found); return 1; } int main(void) { __try { RaiseException(0xE0000001, 0, 0, 0); } __except (look()) { put(3); } return 0; }
=> 0 1 / 2 / 0 / 3 / exit 0
# takes_the_place: int asked; int bad(void) { asked = asked + 1; if (asked == 1) RaiseException(0xE0000002, 0, 0, 0); return 0; } int main(void) { __try { __try { __try { RaiseException(0xE0000001, 0, 0, 0); } __except (bad()) { put(11); } put(12); } __except (GetExceptionCode() == 0xE0000001) { put(13); } } __except (GetExceptionCode() == 0xE0000002) { put(asked); } return 0; }
=> 0 2 / exit 0
# two_deep: int asked; int bad(void) { asked = asked + 1; put(asked); if (asked < 3) RaiseException(0xE0000001 + asked, 0, 0, 0); return 1; } int main(void) { __try { __try { RaiseException(0xE0000001, 0, 0, 0); } __except (bad()) { put(GetExceptionCode() == 0xE0000003); } } __except (1) { put(11); } return 0; }
=> 0 1 / 2 / 3 / 1 / exit 0
";
