//! The cases of rule 15, record.

/// The programs, in the order of their names.
pub const PROGRAMS: &str = r"
# address: int seen(unsigned long long address) { put(address - 0x20003000); return 1; } int main(void) { char *page = (char *)0x20003000; int i; for (i = 0; i < 3; i++) { __try { page[i * 1000] = 1; } __except (seen(GetExceptionInformation()->ExceptionRecord->ExceptionInformation[1])) { put(i); } } return 0; }
=> 0 0 / 0 / 1000 / 1 / 2000 / 2 / exit 0
# address_of_each_width: int seen(unsigned long long address) { put(address & 0xFFFF); return 1; } int main(void) { char *page = (char *)0x20040000; long long sum = 0; __try { sum = sum + *(page + 3); } __except (seen(GetExceptionInformation()->ExceptionRecord->ExceptionInformation[1])) { sum = sum + 1; } __try { sum = sum + *(short *)(page + 6); } __except (seen(GetExceptionInformation()->ExceptionRecord->ExceptionInformation[1])) { sum = sum + 10; } __try { sum = sum + *(long long *)(page + 16); } __except (seen(GetExceptionInformation()->ExceptionRecord->ExceptionInformation[1])) { sum = sum + 100; } put(sum); return 0; }
=> 0 3 / 6 / 16 / 111 / exit 0
# code: int same(unsigned code, unsigned other) { put(code == other); return 1; } int main(void) { __try { RaiseException(0xE0000001, 0, 0, 0); } __except (same(GetExceptionCode(), GetExceptionInformation()->ExceptionRecord->ExceptionCode)) { put(2); } return 0; }
=> 0 1 / 2 / exit 0
# division: int zero; int main(void) { __try { put(7 / zero); } __except (put(GetExceptionInformation()->ExceptionRecord->NumberParameters), 1) { put(1); } return 0; }
=> 0 0 / 1 / exit 0
# in_two_filters: int *nowhere; int seen(int answer, unsigned long long kind, unsigned count) { put(kind * 10 + count); return answer; } int main(void) { __try { __try { *nowhere = 1; } __except (seen(0, GetExceptionInformation()->ExceptionRecord->ExceptionInformation[0], GetExceptionInformation()->ExceptionRecord->NumberParameters)) { put(11); } } __except (seen(1, GetExceptionInformation()->ExceptionRecord->ExceptionInformation[0], GetExceptionInformation()->ExceptionRecord->NumberParameters)) { put(1); } return 0; }
=> 0 12 / 12 / 1 / exit 0
# no_parameters: int main(void) { __try { RaiseException(0xE0000001, 0, 0, 0); } __except (put(GetExceptionInformation()->ExceptionRecord->NumberParameters), 1) { put(1); } return 0; }
=> 0 0 / 1 / exit 0
# of_a_nested_exception: int *nowhere; int asked; int bad(unsigned count) { asked = asked + 1; put(count); if (asked == 1) put(*nowhere); return 1; } int main(void) { __try { RaiseException(0xE0000001, 0, 0, 0); } __except (bad(GetExceptionInformation()->ExceptionRecord->NumberParameters)) { put(GetExceptionCode() == 0xC0000005); } return 0; }
=> 0 0 / 2 / 1 / exit 0
# of_the_outer_exception: int *nowhere; int careful(void) { __try { RaiseException(0xE0000002, 0, 0, 0); } __except (put(GetExceptionInformation()->ExceptionRecord->NumberParameters), 1) { put(1); } return 1; } int main(void) { __try { put(*nowhere); } __except (careful(), put(GetExceptionInformation()->ExceptionRecord->NumberParameters), 1) { put(3); } return 0; }
=> 0 0 / 1 / 2 / 3 / exit 0
# parameters_of_an_access: int *nowhere; int main(void) { __try { put(*nowhere); } __except (put(GetExceptionInformation()->ExceptionRecord->NumberParameters), 1) { put(1); } return 0; }
=> 0 2 / 1 / exit 0
# read: int *nowhere; int main(void) { __try { put(*nowhere); } __except (put(GetExceptionInformation()->ExceptionRecord->ExceptionInformation[0]), 1) { put(1); } return 0; }
=> 0 0 / 1 / exit 0
# write: int *nowhere; int main(void) { __try { *nowhere = 5; } __except (put(GetExceptionInformation()->ExceptionRecord->ExceptionInformation[0]), 1) { put(2); } return 0; }
=> 0 1 / 2 / exit 0
# write_to_a_page_that_is_read: int main(void) { int *page = (int *)0x20004000; protect(page, 1); __try { put(page[2]); page[2] = 1; } __except (put(GetExceptionInformation()->ExceptionRecord->ExceptionInformation[0]), 1) { put(page[2]); } return 0; }
=> 0 0 / 1 / 0 / exit 0
";
