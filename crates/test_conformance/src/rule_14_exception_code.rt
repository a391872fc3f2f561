//! The cases of rule 14, exception code.

/// The programs, in the order of their names.
pub const PROGRAMS: &str = r"
# after_a_call_that_handles: void careful(void) { __try { RaiseException(0xE0000002, 0, 0, 0); } __except (1) { put(GetExceptionCode() == 0xE0000002); } } int main(void) { __try { RaiseException(0xE0000001, 0, 0, 0); } __except (1) { careful(); put(GetExceptionCode() == 0xE0000001); } return 0; }
=> 0 1 / 1 / exit 0
# as_an_argument: int is_listed(unsigned code, unsigned first, unsigned second) { return code == first || code == second; } void test(int n) { __try { RaiseException(0xE0000000 + n, 0, 0, 0); } __except (is_listed(GetExceptionCode(), 0xE0000001, 0xE0000003)) { put(n); } } int main(void) { int i; for (i = 1; i < 5; i++) { __try { test(i); } __except (1) { put(10 + i); } } return 0; }
=> 0 1 / 12 / 3 / 14 / exit 0
# filter_in_a_block: int main(void) { __try { RaiseException(0xE0000001, 0, 0, 0); } __except (1) { __try { RaiseException(0xE0000002, 0, 0, 0); } __except (put(GetExceptionCode() == 0xE0000002), 1) { put(2); } } return 0; }
=> 0 1 / 2 / exit 0
# finally_block_of_a_block: int main(void) { __try { RaiseException(0xE0000001, 0, 0, 0); } __except (1) { __try { put(1); } __finally { put(GetExceptionCode() == 0xE0000001); } } return 0; }
=> 0 1 / 1 / exit 0
# in_a_block: int main(void) { __try { RaiseException(0xE0000001, 0, 0, 0); } __except (1) { put(GetExceptionCode()); } __try { RaiseException(0x00000005, 0, 0, 0); } __except (1) { put(GetExceptionCode()); } return 0; }
=> 0 3758096385 / 5 / exit 0
# in_a_filter: int show(unsigned code) { put(code); return 1; } int main(void) { __try { RaiseException(0xE0000001, 0, 0, 0); } __except (show(GetExceptionCode())) { put(1); } __try { RaiseException(0x00000005, 0, 0, 0); } __except (show(GetExceptionCode())) { put(2); } return 0; }
=> 0 3758096385 / 1 / 5 / 2 / exit 0
# in_a_loop_of_a_block: int main(void) { int i; int sum = 0; __try { RaiseException(0xE0000001, 0, 0, 0); } __except (1) { for (i = 0; i < 10; i++) { put(i == 4); if (i == 4) break; } sum = sum + (GetExceptionCode() == 0xE0000001); } put(sum); return 0; }
=> 0 0 / 0 / 0 / 0 / 1 / 1 / exit 0
# inner_block: int main(void) { __try { RaiseException(0xE0000001, 0, 0, 0); } __except (1) { __try { RaiseException(0xE0000002, 0, 0, 0); } __except (1) { put(GetExceptionCode() == 0xE0000002); } put(GetExceptionCode() == 0xE0000001); } return 0; }
=> 0 1 / 1 / exit 0
# inner_section_of_a_block: int main(void) { __try { RaiseException(0xE0000001, 0, 0, 0); } __except (1) { __try { put(GetExceptionCode() == 0xE0000001); } __except (1) { put(11); } } return 0; }
=> 0 1 / exit 0
# largest: int main(void) { __try { RaiseException(0xEFFFFFFF, 0, 0, 0); } __except (GetExceptionCode() > 0 ? 1 : 0) { put(GetExceptionCode()); } return 0; }
=> 0 4026531839 / exit 0
# of_a_division: int zero; int test(int n) { __try { return n / zero; } __except (put(GetExceptionCode() == 0xC0000094), 1) { put(GetExceptionCode() == 0xC0000094); } return 3; } int main(void) { put(test(7)); return 0; }
=> 0 1 / 1 / 3 / exit 0
# of_a_remainder: unsigned zero; int main(void) { __try { put(7 % zero); } __except (1) { put(GetExceptionCode() == 0xC0000094); } return 0; }
=> 0 1 / exit 0
# of_an_access: int *nowhere; int main(void) { __try { *nowhere = 1; } __except (put(GetExceptionCode() == 0xC0000005), 1) { put(GetExceptionCode() == 0xC0000005); } return 0; }
=> 0 1 / 1 / exit 0
# of_an_overflow: int least = -2147483647; int minus_one = -1; int main(void) { __try { least = least - 1; put(least / minus_one); } __except (1) { put(GetExceptionCode() == 0xC0000095); } return 0; }
=> 0 1 / exit 0
# of_the_second_exception: int main(void) { __try { __try { RaiseException(0xE0000001, 0, 0, 0); } __except (1) { put(GetExceptionCode() == 0xE0000001); RaiseException(0xE0000002, 0, 0, 0); } } __except (put(GetExceptionCode() == 0xE0000002), 1) { put(GetExceptionCode() == 0xE0000002); } return 0; }
=> 0 1 / 1 / 1 / exit 0
";
