//! The cases of rule 03, continuing.

/// The programs, in the order of their names.
pub const PROGRAMS: &str = r"
# division: int zero; int asked; int third_accepts(void) { asked = asked + 1; return asked == 3 ? 1 : -1; } int main(void) { __try { put(10 / zero); } __except (third_accepts()) { put(asked); } return 0; }
=> 0 3 / exit 0
# finally_of_a_continued_section: int say(int n, int answer) { put(n); return answer; } int main(void) { __try { __try { RaiseException(0xE0000001, 0, 0, 0); put(2); } __finally { put(AbnormalTermination()); } } __except (say(1, -1)) { put(11); } put(3); return 0; }
=> 0 1 / 2 / 0 / 3 / exit 0
# in_a_loop: int asked; int count(void) { asked = asked + 1; return -1; } int main(void) { int i; __try { for (i = 0; i < 20; i++) RaiseException(0xE0000001, 0, 0, 0); put(i); } __except (count()) { put(11); } put(asked); return 0; }
=> 0 20 / 20 / exit 0
# inner_filter_continues: int say(int n, int answer) { put(n); return answer; } int main(void) { __try { __try { RaiseException(0xE0000001, 0, 0, 0); put(2); } __except (say(1, -1)) { put(11); } } __except (say(12, 1)) { put(13); } return 0; }
=> 0 1 / 2 / exit 0
# local_that_the_filter_changes: int main(void) { int x = 1; __try { RaiseException(0xE0000001, 0, 0, 0); put(x); } __except (x = x + 4, -1) { put(11); } put(x + 1); return 0; }
=> 0 5 / 6 / exit 0
# locals: int busy(int n) { int a = n + 1; int b = n + 2; int c = n + 3; put(a + b + c); return -1; } int main(void) { int x = 3; int y = 5; int z = 7; __try { x = x * y; RaiseException(0xE0000001, 0, 0, 0); z = x + y * z; } __except (busy(10)) { put(11); } put(x); put(y); put(z); return 0; }
=> 0 36 / 15 / 5 / 50 / exit 0
# outer_filter_continues: int say(int n, int answer) { put(n); return answer; } int main(void) { __try { __try { RaiseException(0xE0000001, 0, 0, 0); put(3); } __except (say(1, 0)) { put(11); } put(4); } __except (say(2, -1)) { put(12); } return 0; }
=> 0 1 / 2 / 3 / 4 / exit 0
# page_by_page: int opened; int open(unsigned long long address) { opened = opened + 1; protect((void *)address, 2); return -1; } int main(void) { char *arena = (char *)0x20000000; int i; int sum = 0; __try { for (i = 0; i < 8; i++) arena[i * 2048] = i; for (i = 0; i < 8; i++) sum = sum + arena[i * 2048]; } __except (open(GetExceptionInformation()->ExceptionRecord->ExceptionInformation[1])) { put(11); } put(opened); put(sum); return 0; }
=> 0 4 / 28 / exit 0
# raise_returns: int say(int n, int answer) { put(n); return answer; } int main(void) { __try { put(1); RaiseException(0xE0000001, 0, 0, 0); put(3); } __except (say(2, EXCEPTION_CONTINUE_EXECUTION)) { put(11); } put(4); return 0; }
=> 0 1 / 2 / 3 / 4 / exit 0
# raise_returns_in_a_callee: int say(int n, int answer) { put(n); return answer; } int callee(int n) { int twice = n * 2; RaiseException(0xE0000001, 0, 0, 0); put(twice); return twice + 1; } int main(void) { int x = 0; __try { x = callee(4); } __except (say(1, -1)) { put(11); } put(x); return 0; }
=> 0 1 / 8 / 9 / exit 0
# read: int open(void) { put(1); protect((void *)0x20000000, 2); return EXCEPTION_CONTINUE_EXECUTION; } int main(void) { int *page = (int *)0x20000000; __try { put(*page); put(2); } __except (open()) { put(11); } return 0; }
=> 0 1 / 0 / 2 / exit 0
# twice: int asked; int first_continues(void) { asked = asked + 1; put(asked); return asked == 1 ? -1 : 1; } int main(void) { __try { RaiseException(0xE0000001, 0, 0, 0); put(10); RaiseException(0xE0000002, 0, 0, 0); put(11); } __except (first_continues()) { put(GetExceptionCode() == 0xE0000002); } return 0; }
=> 0 1 / 10 / 2 / 1 / exit 0
# write: int open(void) { put(1); protect((void *)0x20001000, 2); return EXCEPTION_CONTINUE_EXECUTION; } int main(void) { int *page = (int *)0x20001000; __try { *page = 7; put(*page); } __except (open()) { put(11); } put(*page + 1); return 0; }
=> 0 1 / 7 / 8 / exit 0
# write_to_a_page_that_is_read: int open(void) { put(1); protect((void *)0x20002000, 2); return EXCEPTION_CONTINUE_EXECUTION; } int main(void) { int *page = (int *)0x20002000; protect(page, 1); __try { put(*page); page[1] = 5; put(page[1]); } __except (open()) { put(11); } return 0; }
=> 0 0 / 1 / 5 / exit 0
";
