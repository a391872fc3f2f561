//! The pairs of one construct.

/// The programs, in the order of their names.
pub const PROGRAMS: &str = r"
# access-in-accepting: void part0(void) { __try { put(1); *(int *)0x20000000 = 1; put(2); } __except (put(3), 1) { put(4); } } int main(void) { __try { part0(); put(5); } __except (1) { put(GetExceptionCode() % 256); } put(6); return 0; }
=> 0 1 / 3 / 4 / 5 / 6 / exit 0
# access-in-block: void fail(int n) { RaiseException(0xE0000000 + n, 0, 0, 0); } void part0(void) { __try { fail(4); } __except (1) { put(1); put(2); *(int *)0x20000000 = 1; put(3); } } int main(void) { __try { part0(); put(4); } __except (1) { put(GetExceptionCode() % 256); } put(5); return 0; }
=> 0 1 / 2 / 5 / 5 / exit 0
# access-in-call: void part1(void) { put(1); *(int *)0x20000000 = 1; put(2); } void part0(void) { part1(); put(3); } int main(void) { __try { part0(); put(4); } __except (1) { put(GetExceptionCode() % 256); } put(5); return 0; }
=> 0 1 / 5 / 5 / exit 0
# access-in-choosing: void part0(void) { __try { put(1); *(int *)0x20000000 = 1; put(2); } __except (GetExceptionCode() == 0xE0000003) { put(3); } put(4); } int main(void) { __try { part0(); put(5); } __except (1) { put(GetExceptionCode() % 256); } put(6); return 0; }
=> 0 1 / 5 / 6 / exit 0
# access-in-colliding: void fail(int n) { RaiseException(0xE0000000 + n, 0, 0, 0); } void part0(void) { __try { put(1); *(int *)0x20000000 = 1; put(2); } __finally { put(3); if (AbnormalTermination()) fail(3); } put(4); } int main(void) { __try { part0(); put(5); } __except (1) { put(GetExceptionCode() % 256); } put(6); return 0; }
=> 0 1 / 3 / 3 / 6 / exit 0
# access-in-continuing: int mending(unsigned code) { put(code % 256); protect((void *)0x20000000, 2); return code == 0xC0000025 || code == 0xC0000094 ? 1 : -1; } void part0(void) { __try { put(1); *(int *)0x20000000 = 1; put(2); } __except (mending(GetExceptionCode())) { put(3); } } int main(void) { __try { part0(); put(4); } __except (1) { put(GetExceptionCode() % 256); } put(5); return 0; }
=> 0 1 / 5 / 2 / 4 / 5 / exit 0
# access-in-filter: void fail(int n) { RaiseException(0xE0000000 + n, 0, 0, 0); } int begun0; int part1(void) { begun0 = begun0 + 1; if (begun0 > 1) return 1; put(1); *(int *)0x20000000 = 1; put(2); return 1; } void part0(void) { __try { fail(6); } __except (part1()) { put(3); } } int main(void) { __try { part0(); put(4); } __except (1) { put(GetExceptionCode() % 256); } put(5); return 0; }
=> 0 1 / 3 / 4 / 5 / exit 0
# access-in-finishing: void part0(void) { __try { put(1); *(int *)0x20000000 = 1; put(2); } __finally { put(3 + AbnormalTermination()); } put(5); } int main(void) { __try { part0(); put(6); } __except (1) { put(GetExceptionCode() % 256); } put(7); return 0; }
=> 0 1 / 4 / 5 / 7 / exit 0
# access-in-handler: void fail(int n) { RaiseException(0xE0000000 + n, 0, 0, 0); } void part1(void) { put(1); *(int *)0x20000000 = 1; put(2); } void part0(void) { __try { fail(5); } __finally { part1(); put(3); } } int main(void) { __try { part0(); put(4); } __except (1) { put(GetExceptionCode() % 256); } put(5); return 0; }
=> 0 1 / 5 / 5 / exit 0
# access-in-loop: void part0(void) { int n0; for (n0 = 0; n0 < 2; n0++) { put(1); *(int *)0x20000000 = 1; put(2); put(3); } } int main(void) { __try { part0(); put(4); } __except (1) { put(GetExceptionCode() % 256); } put(5); return 0; }
=> 0 1 / 5 / 5 / exit 0
# access-in-nesting: int asked; void fail(int n) { RaiseException(0xE0000000 + n, 0, 0, 0); } int raising(void) { asked = asked + 1; if (asked == 1) fail(2); return 0; } void part0(void) { __try { put(1); *(int *)0x20000000 = 1; put(2); } __except (raising()) { put(3); } } int main(void) { __try { part0(); put(4); } __except (1) { put(GetExceptionCode() % 256); } put(5); return 0; }
=> 0 1 / 2 / 5 / exit 0
# access-in-searching: void part0(void) { __try { put(1); *(int *)0x20000000 = 1; put(2); } __except (put(3), 0) { put(4); } } int main(void) { __try { part0(); put(5); } __except (1) { put(GetExceptionCode() % 256); } put(6); return 0; }
=> 0 1 / 3 / 5 / 6 / exit 0
# break-in-accepting: void part0(void) { int i; for (i = 0; i < 2; i++) { __try { put(1); break; } __except (put(2), 1) { put(3); } put(4); } } int main(void) { __try { part0(); put(5); } __except (1) { put(GetExceptionCode() % 256); } put(6); return 0; }
=> 0 1 / 5 / 6 / exit 0
# break-in-block: void fail(int n) { RaiseException(0xE0000000 + n, 0, 0, 0); } void part0(void) { int i; for (i = 0; i < 2; i++) { __try { fail(4); } __except (1) { put(1); put(2); break; } put(3); } } int main(void) { __try { part0(); put(4); } __except (1) { put(GetExceptionCode() % 256); } put(5); return 0; }
=> 0 1 / 2 / 4 / 5 / exit 0
# break-in-call: void part1(void) { int i; for (i = 0; i < 2; i++) { put(1); break; put(2); } } void part0(void) { part1(); put(3); } int main(void) { __try { part0(); put(4); } __except (1) { put(GetExceptionCode() % 256); } put(5); return 0; }
=> 0 1 / 3 / 4 / 5 / exit 0
# break-in-choosing: void part0(void) { int i; for (i = 0; i < 2; i++) { __try { put(1); break; } __except (GetExceptionCode() == 0xE0000003) { put(2); } put(3); put(4); } } int main(void) { __try { part0(); put(5); } __except (1) { put(GetExceptionCode() % 256); } put(6); return 0; }
=> 0 1 / 5 / 6 / exit 0
# break-in-colliding: void fail(int n) { RaiseException(0xE0000000 + n, 0, 0, 0); } void part0(void) { int i; for (i = 0; i < 2; i++) { __try { put(1); break; } __finally { put(2); if (AbnormalTermination()) fail(3); } put(3); put(4); } } int main(void) { __try { part0(); put(5); } __except (1) { put(GetExceptionCode() % 256); } put(6); return 0; }
=> 0 1 / 2 / 3 / 6 / exit 0
# break-in-continuing: int mending(unsigned code) { put(code % 256); protect((void *)0x20000000, 2); return code == 0xC0000025 || code == 0xC0000094 ? 1 : -1; } void part0(void) { int i; for (i = 0; i < 2; i++) { __try { put(1); break; } __except (mending(GetExceptionCode())) { put(2); } put(3); } } int main(void) { __try { part0(); put(4); } __except (1) { put(GetExceptionCode() % 256); } put(5); return 0; }
=> 0 1 / 4 / 5 / exit 0
# break-in-filter: void fail(int n) { RaiseException(0xE0000000 + n, 0, 0, 0); } int begun0; int part1(void) { begun0 = begun0 + 1; if (begun0 > 1) return 1; int i; for (i = 0; i < 2; i++) { put(1); break; put(2); } return 1; } void part0(void) { __try { fail(6); } __except (part1()) { put(3); } } int main(void) { __try { part0(); put(4); } __except (1) { put(GetExceptionCode() % 256); } put(5); return 0; }
=> 0 1 / 3 / 4 / 5 / exit 0
# break-in-finishing: void part0(void) { int i; for (i = 0; i < 2; i++) { __try { put(1); break; } __finally { put(2 + AbnormalTermination()); } put(4); put(5); } } int main(void) { __try { part0(); put(6); } __except (1) { put(GetExceptionCode() % 256); } put(7); return 0; }
=> 0 1 / 3 / 6 / 7 / exit 0
# break-in-handler: void fail(int n) { RaiseException(0xE0000000 + n, 0, 0, 0); } void part1(void) { int i; for (i = 0; i < 2; i++) { put(1); break; put(2); } } void part0(void) { __try { fail(5); } __finally { part1(); put(3); } } int main(void) { __try { part0(); put(4); } __except (1) { put(GetExceptionCode() % 256); } put(5); return 0; }
=> 0 1 / 3 / 5 / 5 / exit 0
# break-in-loop: void part0(void) { int n0; for (n0 = 0; n0 < 2; n0++) { put(1); break; put(2); } } int main(void) { __try { part0(); put(3); } __except (1) { put(GetExceptionCode() % 256); } put(4); return 0; }
=> 0 1 / 3 / 4 / exit 0
# break-in-nesting: int asked; void fail(int n) { RaiseException(0xE0000000 + n, 0, 0, 0); } int raising(void) { asked = asked + 1; if (asked == 1) fail(2); return 0; } void part0(void) { int i; for (i = 0; i < 2; i++) { __try { put(1); break; } __except (raising()) { put(2); } put(3); } } int main(void) { __try { part0(); put(4); } __except (1) { put(GetExceptionCode() % 256); } put(5); return 0; }
=> 0 1 / 4 / 5 / exit 0
# break-in-searching: void part0(void) { int i; for (i = 0; i < 2; i++) { __try { put(1); break; } __except (put(2), 0) { put(3); } put(4); } } int main(void) { __try { part0(); put(5); } __except (1) { put(GetExceptionCode() % 256); } put(6); return 0; }
=> 0 1 / 5 / 6 / exit 0
# continue-in-accepting: void part0(void) { int i; for (i = 0; i < 2; i++) { __try { put(1); continue; } __except (put(2), 1) { put(3); } put(4); } } int main(void) { __try { part0(); put(5); } __except (1) { put(GetExceptionCode() % 256); } put(6); return 0; }
=> 0 1 / 1 / 5 / 6 / exit 0
# continue-in-block: void fail(int n) { RaiseException(0xE0000000 + n, 0, 0, 0); } void part0(void) { int i; for (i = 0; i < 2; i++) { __try { fail(4); } __except (1) { put(1); put(2); continue; } put(3); } } int main(void) { __try { part0(); put(4); } __except (1) { put(GetExceptionCode() % 256); } put(5); return 0; }
=> 0 1 / 2 / 1 / 2 / 4 / 5 / exit 0
# continue-in-call: void part1(void) { int i; for (i = 0; i < 2; i++) { put(1); continue; put(2); } } void part0(void) { part1(); put(3); } int main(void) { __try { part0(); put(4); } __except (1) { put(GetExceptionCode() % 256); } put(5); return 0; }
=> 0 1 / 1 / 3 / 4 / 5 / exit 0
# continue-in-choosing: void part0(void) { int i; for (i = 0; i < 2; i++) { __try { put(1); continue; } __except (GetExceptionCode() == 0xE0000003) { put(2); } put(3); put(4); } } int main(void) { __try { part0(); put(5); } __except (1) { put(GetExceptionCode() % 256); } put(6); return 0; }
=> 0 1 / 1 / 5 / 6 / exit 0
# continue-in-colliding: void fail(int n) { RaiseException(0xE0000000 + n, 0, 0, 0); } void part0(void) { int i; for (i = 0; i < 2; i++) { __try { put(1); continue; } __finally { put(2); if (AbnormalTermination()) fail(3); } put(3); put(4); } } int main(void) { __try { part0(); put(5); } __except (1) { put(GetExceptionCode() % 256); } put(6); return 0; }
=> 0 1 / 2 / 3 / 6 / exit 0
# continue-in-continuing: int mending(unsigned code) { put(code % 256); protect((void *)0x20000000, 2); return code == 0xC0000025 || code == 0xC0000094 ? 1 : -1; } void part0(void) { int i; for (i = 0; i < 2; i++) { __try { put(1); continue; } __except (mending(GetExceptionCode())) { put(2); } put(3); } } int main(void) { __try { part0(); put(4); } __except (1) { put(GetExceptionCode() % 256); } put(5); return 0; }
=> 0 1 / 1 / 4 / 5 / exit 0
# continue-in-filter: void fail(int n) { RaiseException(0xE0000000 + n, 0, 0, 0); } int begun0; int part1(void) { begun0 = begun0 + 1; if (begun0 > 1) return 1; int i; for (i = 0; i < 2; i++) { put(1); continue; put(2); } return 1; } void part0(void) { __try { fail(6); } __except (part1()) { put(3); } } int main(void) { __try { part0(); put(4); } __except (1) { put(GetExceptionCode() % 256); } put(5); return 0; }
=> 0 1 / 1 / 3 / 4 / 5 / exit 0
# continue-in-finishing: void part0(void) { int i; for (i = 0; i < 2; i++) { __try { put(1); continue; } __finally { put(2 + AbnormalTermination()); } put(4); put(5); } } int main(void) { __try { part0(); put(6); } __except (1) { put(GetExceptionCode() % 256); } put(7); return 0; }
=> 0 1 / 3 / 1 / 3 / 6 / 7 / exit 0
# continue-in-handler: void fail(int n) { RaiseException(0xE0000000 + n, 0, 0, 0); } void part1(void) { int i; for (i = 0; i < 2; i++) { put(1); continue; put(2); } } void part0(void) { __try { fail(5); } __finally { part1(); put(3); } } int main(void) { __try { part0(); put(4); } __except (1) { put(GetExceptionCode() % 256); } put(5); return 0; }
=> 0 1 / 1 / 3 / 5 / 5 / exit 0
# continue-in-loop: void part0(void) { int n0; for (n0 = 0; n0 < 2; n0++) { put(1); continue; put(2); } } int main(void) { __try { part0(); put(3); } __except (1) { put(GetExceptionCode() % 256); } put(4); return 0; }
=> 0 1 / 1 / 3 / 4 / exit 0
# continue-in-nesting: int asked; void fail(int n) { RaiseException(0xE0000000 + n, 0, 0, 0); } int raising(void) { asked = asked + 1; if (asked == 1) fail(2); return 0; } void part0(void) { int i; for (i = 0; i < 2; i++) { __try { put(1); continue; } __except (raising()) { put(2); } put(3); } } int main(void) { __try { part0(); put(4); } __except (1) { put(GetExceptionCode() % 256); } put(5); return 0; }
=> 0 1 / 1 / 4 / 5 / exit 0
# continue-in-searching: void part0(void) { int i; for (i = 0; i < 2; i++) { __try { put(1); continue; } __except (put(2), 0) { put(3); } put(4); } } int main(void) { __try { part0(); put(5); } __except (1) { put(GetExceptionCode() % 256); } put(6); return 0; }
=> 0 1 / 1 / 5 / 6 / exit 0
# division-in-accepting: int zero; void part0(void) { __try { put(1); put(7 / zero); put(2); } __except (put(3), 1) { put(4); } } int main(void) { __try { part0(); put(5); } __except (1) { put(GetExceptionCode() % 256); } put(6); return 0; }
=> 0 1 / 3 / 4 / 5 / 6 / exit 0
# division-in-block: void fail(int n) { RaiseException(0xE0000000 + n, 0, 0, 0); } int zero; void part0(void) { __try { fail(4); } __except (1) { put(1); put(2); put(7 / zero); put(3); } } int main(void) { __try { part0(); put(4); } __except (1) { put(GetExceptionCode() % 256); } put(5); return 0; }
=> 0 1 / 2 / 148 / 5 / exit 0
# division-in-call: int zero; void part1(void) { put(1); put(7 / zero); put(2); } void part0(void) { part1(); put(3); } int main(void) { __try { part0(); put(4); } __except (1) { put(GetExceptionCode() % 256); } put(5); return 0; }
=> 0 1 / 148 / 5 / exit 0
# division-in-choosing: int zero; void part0(void) { __try { put(1); put(7 / zero); put(2); } __except (GetExceptionCode() == 0xE0000003) { put(3); } put(4); } int main(void) { __try { part0(); put(5); } __except (1) { put(GetExceptionCode() % 256); } put(6); return 0; }
=> 0 1 / 148 / 6 / exit 0
# division-in-colliding: void fail(int n) { RaiseException(0xE0000000 + n, 0, 0, 0); } int zero; void part0(void) { __try { put(1); put(7 / zero); put(2); } __finally { put(3); if (AbnormalTermination()) fail(3); } put(4); } int main(void) { __try { part0(); put(5); } __except (1) { put(GetExceptionCode() % 256); } put(6); return 0; }
=> 0 1 / 3 / 3 / 6 / exit 0
# division-in-continuing: int zero; int mending(unsigned code) { put(code % 256); protect((void *)0x20000000, 2); return code == 0xC0000025 || code == 0xC0000094 ? 1 : -1; } void part0(void) { __try { put(1); put(7 / zero); put(2); } __except (mending(GetExceptionCode())) { put(3); } } int main(void) { __try { part0(); put(4); } __except (1) { put(GetExceptionCode() % 256); } put(5); return 0; }
=> 0 1 / 148 / 3 / 4 / 5 / exit 0
# division-in-filter: void fail(int n) { RaiseException(0xE0000000 + n, 0, 0, 0); } int zero; int begun0; int part1(void) { begun0 = begun0 + 1; if (begun0 > 1) return 1; put(1); put(7 / zero); put(2); return 1; } void part0(void) { __try { fail(6); } __except (part1()) { put(3); } } int main(void) { __try { part0(); put(4); } __except (1) { put(GetExceptionCode() % 256); } put(5); return 0; }
=> 0 1 / 3 / 4 / 5 / exit 0
# division-in-finishing: int zero; void part0(void) { __try { put(1); put(7 / zero); put(2); } __finally { put(3 + AbnormalTermination()); } put(5); } int main(void) { __try { part0(); put(6); } __except (1) { put(GetExceptionCode() % 256); } put(7); return 0; }
=> 0 1 / 4 / 148 / 7 / exit 0
# division-in-handler: void fail(int n) { RaiseException(0xE0000000 + n, 0, 0, 0); } int zero; void part1(void) { put(1); put(7 / zero); put(2); } void part0(void) { __try { fail(5); } __finally { part1(); put(3); } } int main(void) { __try { part0(); put(4); } __except (1) { put(GetExceptionCode() % 256); } put(5); return 0; }
=> 0 1 / 148 / 5 / exit 0
# division-in-loop: int zero; void part0(void) { int n0; for (n0 = 0; n0 < 2; n0++) { put(1); put(7 / zero); put(2); put(3); } } int main(void) { __try { part0(); put(4); } __except (1) { put(GetExceptionCode() % 256); } put(5); return 0; }
=> 0 1 / 148 / 5 / exit 0
# division-in-nesting: int asked; void fail(int n) { RaiseException(0xE0000000 + n, 0, 0, 0); } int zero; int raising(void) { asked = asked + 1; if (asked == 1) fail(2); return 0; } void part0(void) { __try { put(1); put(7 / zero); put(2); } __except (raising()) { put(3); } } int main(void) { __try { part0(); put(4); } __except (1) { put(GetExceptionCode() % 256); } put(5); return 0; }
=> 0 1 / 2 / 5 / exit 0
# division-in-searching: int zero; void part0(void) { __try { put(1); put(7 / zero); put(2); } __except (put(3), 0) { put(4); } } int main(void) { __try { part0(); put(5); } __except (1) { put(GetExceptionCode() % 256); } put(6); return 0; }
=> 0 1 / 3 / 148 / 6 / exit 0
# end-in-accepting: void part0(void) { __try { put(1); } __except (put(2), 1) { put(3); } } int main(void) { __try { part0(); put(4); } __except (1) { put(GetExceptionCode() % 256); } put(5); return 0; }
=> 0 1 / 4 / 5 / exit 0
# end-in-block: void fail(int n) { RaiseException(0xE0000000 + n, 0, 0, 0); } void part0(void) { __try { fail(4); } __except (1) { put(1); put(2); } } int main(void) { __try { part0(); put(3); } __except (1) { put(GetExceptionCode() % 256); } put(4); return 0; }
=> 0 1 / 2 / 3 / 4 / exit 0
# end-in-call: void part1(void) { put(1); } void part0(void) { part1(); put(2); } int main(void) { __try { part0(); put(3); } __except (1) { put(GetExceptionCode() % 256); } put(4); return 0; }
=> 0 1 / 2 / 3 / 4 / exit 0
# end-in-choosing: void part0(void) { __try { put(1); } __except (GetExceptionCode() == 0xE0000003) { put(2); } put(3); } int main(void) { __try { part0(); put(4); } __except (1) { put(GetExceptionCode() % 256); } put(5); return 0; }
=> 0 1 / 3 / 4 / 5 / exit 0
# end-in-colliding: void fail(int n) { RaiseException(0xE0000000 + n, 0, 0, 0); } void part0(void) { __try { put(1); } __finally { put(2); if (AbnormalTermination()) fail(3); } put(3); } int main(void) { __try { part0(); put(4); } __except (1) { put(GetExceptionCode() % 256); } put(5); return 0; }
=> 0 1 / 2 / 3 / 4 / 5 / exit 0
# end-in-continuing: int mending(unsigned code) { put(code % 256); protect((void *)0x20000000, 2); return code == 0xC0000025 || code == 0xC0000094 ? 1 : -1; } void part0(void) { __try { put(1); } __except (mending(GetExceptionCode())) { put(2); } } int main(void) { __try { part0(); put(3); } __except (1) { put(GetExceptionCode() % 256); } put(4); return 0; }
=> 0 1 / 3 / 4 / exit 0
# end-in-filter: void fail(int n) { RaiseException(0xE0000000 + n, 0, 0, 0); } int begun0; int part1(void) { begun0 = begun0 + 1; if (begun0 > 1) return 1; put(1); return 1; } void part0(void) { __try { fail(6); } __except (part1()) { put(2); } } int main(void) { __try { part0(); put(3); } __except (1) { put(GetExceptionCode() % 256); } put(4); return 0; }
=> 0 1 / 2 / 3 / 4 / exit 0
# end-in-finishing: void part0(void) { __try { put(1); } __finally { put(2 + AbnormalTermination()); } put(4); } int main(void) { __try { part0(); put(5); } __except (1) { put(GetExceptionCode() % 256); } put(6); return 0; }
=> 0 1 / 2 / 4 / 5 / 6 / exit 0
# end-in-handler: void fail(int n) { RaiseException(0xE0000000 + n, 0, 0, 0); } void part1(void) { put(1); } void part0(void) { __try { fail(5); } __finally { part1(); put(2); } } int main(void) { __try { part0(); put(3); } __except (1) { put(GetExceptionCode() % 256); } put(4); return 0; }
=> 0 1 / 2 / 5 / 4 / exit 0
# end-in-loop: void part0(void) { int n0; for (n0 = 0; n0 < 2; n0++) { put(1); put(2); } } int main(void) { __try { part0(); put(3); } __except (1) { put(GetExceptionCode() % 256); } put(4); return 0; }
=> 0 1 / 2 / 1 / 2 / 3 / 4 / exit 0
# end-in-nesting: int asked; void fail(int n) { RaiseException(0xE0000000 + n, 0, 0, 0); } int raising(void) { asked = asked + 1; if (asked == 1) fail(2); return 0; } void part0(void) { __try { put(1); } __except (raising()) { put(2); } } int main(void) { __try { part0(); put(3); } __except (1) { put(GetExceptionCode() % 256); } put(4); return 0; }
=> 0 1 / 3 / 4 / exit 0
# end-in-searching: void part0(void) { __try { put(1); } __except (put(2), 0) { put(3); } } int main(void) { __try { part0(); put(4); } __except (1) { put(GetExceptionCode() % 256); } put(5); return 0; }
=> 0 1 / 4 / 5 / exit 0
# leave-in-accepting: void part0(void) { __try { put(1); __leave; } __except (put(2), 1) { put(3); } } int main(void) { __try { part0(); put(4); } __except (1) { put(GetExceptionCode() % 256); } put(5); return 0; }
=> 0 1 / 4 / 5 / exit 0
# leave-in-block: void fail(int n) { RaiseException(0xE0000000 + n, 0, 0, 0); } void part0(void) { __try { fail(4); } __except (1) { put(1); __try { put(2); __leave; } __finally { put(3); } } } int main(void) { __try { part0(); put(4); } __except (1) { put(GetExceptionCode() % 256); } put(5); return 0; }
=> 0 1 / 2 / 3 / 4 / 5 / exit 0
# leave-in-call: void part1(void) { __try { put(1); __leave; } __finally { put(2); } } void part0(void) { part1(); put(3); } int main(void) { __try { part0(); put(4); } __except (1) { put(GetExceptionCode() % 256); } put(5); return 0; }
=> 0 1 / 2 / 3 / 4 / 5 / exit 0
# leave-in-choosing: void part0(void) { __try { put(1); __leave; } __except (GetExceptionCode() == 0xE0000003) { put(2); } put(3); } int main(void) { __try { part0(); put(4); } __except (1) { put(GetExceptionCode() % 256); } put(5); return 0; }
=> 0 1 / 3 / 4 / 5 / exit 0
# leave-in-colliding: void fail(int n) { RaiseException(0xE0000000 + n, 0, 0, 0); } void part0(void) { __try { put(1); __leave; } __finally { put(2); if (AbnormalTermination()) fail(3); } put(3); } int main(void) { __try { part0(); put(4); } __except (1) { put(GetExceptionCode() % 256); } put(5); return 0; }
=> 0 1 / 2 / 3 / 4 / 5 / exit 0
# leave-in-continuing: int mending(unsigned code) { put(code % 256); protect((void *)0x20000000, 2); return code == 0xC0000025 || code == 0xC0000094 ? 1 : -1; } void part0(void) { __try { put(1); __leave; } __except (mending(GetExceptionCode())) { put(2); } } int main(void) { __try { part0(); put(3); } __except (1) { put(GetExceptionCode() % 256); } put(4); return 0; }
=> 0 1 / 3 / 4 / exit 0
# leave-in-filter: void fail(int n) { RaiseException(0xE0000000 + n, 0, 0, 0); } int begun0; int part1(void) { begun0 = begun0 + 1; if (begun0 > 1) return 1; __try { put(1); __leave; } __finally { put(2); } return 1; } void part0(void) { __try { fail(6); } __except (part1()) { put(3); } } int main(void) { __try { part0(); put(4); } __except (1) { put(GetExceptionCode() % 256); } put(5); return 0; }
=> 0 1 / 2 / 3 / 4 / 5 / exit 0
# leave-in-finishing: void part0(void) { __try { put(1); __leave; } __finally { put(2 + AbnormalTermination()); } put(4); } int main(void) { __try { part0(); put(5); } __except (1) { put(GetExceptionCode() % 256); } put(6); return 0; }
=> 0 1 / 2 / 4 / 5 / 6 / exit 0
# leave-in-handler: void fail(int n) { RaiseException(0xE0000000 + n, 0, 0, 0); } void part1(void) { __try { put(1); __leave; } __finally { put(2); } } void part0(void) { __try { fail(5); } __finally { part1(); put(3); } } int main(void) { __try { part0(); put(4); } __except (1) { put(GetExceptionCode() % 256); } put(5); return 0; }
=> 0 1 / 2 / 3 / 5 / 5 / exit 0
# leave-in-loop: void part0(void) { int n0; for (n0 = 0; n0 < 2; n0++) { __try { put(1); __leave; } __finally { put(2); } put(3); } } int main(void) { __try { part0(); put(4); } __except (1) { put(GetExceptionCode() % 256); } put(5); return 0; }
=> 0 1 / 2 / 3 / 1 / 2 / 3 / 4 / 5 / exit 0
# leave-in-nesting: int asked; void fail(int n) { RaiseException(0xE0000000 + n, 0, 0, 0); } int raising(void) { asked = asked + 1; if (asked == 1) fail(2); return 0; } void part0(void) { __try { put(1); __leave; } __except (raising()) { put(2); } } int main(void) { __try { part0(); put(3); } __except (1) { put(GetExceptionCode() % 256); } put(4); return 0; }
=> 0 1 / 3 / 4 / exit 0
# leave-in-searching: void part0(void) { __try { put(1); __leave; } __except (put(2), 0) { put(3); } } int main(void) { __try { part0(); put(4); } __except (1) { put(GetExceptionCode() % 256); } put(5); return 0; }
=> 0 1 / 4 / 5 / exit 0
# noncontinuable-in-accepting: void part0(void) { __try { put(1); RaiseException(0xE0000001, 1, 0, 0); put(2); } __except (put(3), 1) { put(4); } } int main(void) { __try { part0(); put(5); } __except (1) { put(GetExceptionCode() % 256); } put(6); return 0; }
=> 0 1 / 3 / 4 / 5 / 6 / exit 0
# noncontinuable-in-block: void fail(int n) { RaiseException(0xE0000000 + n, 0, 0, 0); } void part0(void) { __try { fail(4); } __except (1) { put(1); put(2); RaiseException(0xE0000001, 1, 0, 0); put(3); } } int main(void) { __try { part0(); put(4); } __except (1) { put(GetExceptionCode() % 256); } put(5); return 0; }
=> 0 1 / 2 / 1 / 5 / exit 0
# noncontinuable-in-call: void part1(void) { put(1); RaiseException(0xE0000001, 1, 0, 0); put(2); } void part0(void) { part1(); put(3); } int main(void) { __try { part0(); put(4); } __except (1) { put(GetExceptionCode() % 256); } put(5); return 0; }
=> 0 1 / 1 / 5 / exit 0
# noncontinuable-in-choosing: void part0(void) { __try { put(1); RaiseException(0xE0000001, 1, 0, 0); put(2); } __except (GetExceptionCode() == 0xE0000003) { put(3); } put(4); } int main(void) { __try { part0(); put(5); } __except (1) { put(GetExceptionCode() % 256); } put(6); return 0; }
=> 0 1 / 1 / 6 / exit 0
# noncontinuable-in-colliding: void fail(int n) { RaiseException(0xE0000000 + n, 0, 0, 0); } void part0(void) { __try { put(1); RaiseException(0xE0000001, 1, 0, 0); put(2); } __finally { put(3); if (AbnormalTermination()) fail(3); } put(4); } int main(void) { __try { part0(); put(5); } __except (1) { put(GetExceptionCode() % 256); } put(6); return 0; }
=> 0 1 / 3 / 3 / 6 / exit 0
# noncontinuable-in-continuing: int mending(unsigned code) { put(code % 256); protect((void *)0x20000000, 2); return code == 0xC0000025 || code == 0xC0000094 ? 1 : -1; } void part0(void) { __try { put(1); RaiseException(0xE0000001, 1, 0, 0); put(2); } __except (mending(GetExceptionCode())) { put(3); } } int main(void) { __try { part0(); put(4); } __except (1) { put(GetExceptionCode() % 256); } put(5); return 0; }
=> 0 1 / 1 / 37 / 3 / 4 / 5 / exit 0
# noncontinuable-in-filter: void fail(int n) { RaiseException(0xE0000000 + n, 0, 0, 0); } int begun0; int part1(void) { begun0 = begun0 + 1; if (begun0 > 1) return 1; put(1); RaiseException(0xE0000001, 1, 0, 0); put(2); return 1; } void part0(void) { __try { fail(6); } __except (part1()) { put(3); } } int main(void) { __try { part0(); put(4); } __except (1) { put(GetExceptionCode() % 256); } put(5); return 0; }
=> 0 1 / 3 / 4 / 5 / exit 0
# noncontinuable-in-finishing: void part0(void) { __try { put(1); RaiseException(0xE0000001, 1, 0, 0); put(2); } __finally { put(3 + AbnormalTermination()); } put(5); } int main(void) { __try { part0(); put(6); } __except (1) { put(GetExceptionCode() % 256); } put(7); return 0; }
=> 0 1 / 4 / 1 / 7 / exit 0
# noncontinuable-in-handler: void fail(int n) { RaiseException(0xE0000000 + n, 0, 0, 0); } void part1(void) { put(1); RaiseException(0xE0000001, 1, 0, 0); put(2); } void part0(void) { __try { fail(5); } __finally { part1(); put(3); } } int main(void) { __try { part0(); put(4); } __except (1) { put(GetExceptionCode() % 256); } put(5); return 0; }
=> 0 1 / 1 / 5 / exit 0
# noncontinuable-in-loop: void part0(void) { int n0; for (n0 = 0; n0 < 2; n0++) { put(1); RaiseException(0xE0000001, 1, 0, 0); put(2); put(3); } } int main(void) { __try { part0(); put(4); } __except (1) { put(GetExceptionCode() % 256); } put(5); return 0; }
=> 0 1 / 1 / 5 / exit 0
# noncontinuable-in-nesting: int asked; void fail(int n) { RaiseException(0xE0000000 + n, 0, 0, 0); } int raising(void) { asked = asked + 1; if (asked == 1) fail(2); return 0; } void part0(void) { __try { put(1); RaiseException(0xE0000001, 1, 0, 0); put(2); } __except (raising()) { put(3); } } int main(void) { __try { part0(); put(4); } __except (1) { put(GetExceptionCode() % 256); } put(5); return 0; }
=> 0 1 / 2 / 5 / exit 0
# noncontinuable-in-searching: void part0(void) { __try { put(1); RaiseException(0xE0000001, 1, 0, 0); put(2); } __except (put(3), 0) { put(4); } } int main(void) { __try { part0(); put(5); } __except (1) { put(GetExceptionCode() % 256); } put(6); return 0; }
=> 0 1 / 3 / 1 / 6 / exit 0
# raise-in-accepting: void fail(int n) { RaiseException(0xE0000000 + n, 0, 0, 0); } void part0(void) { __try { put(1); fail(1); put(2); } __except (put(3), 1) { put(4); } } int main(void) { __try { part0(); put(5); } __except (1) { put(GetExceptionCode() % 256); } put(6); return 0; }
=> 0 1 / 3 / 4 / 5 / 6 / exit 0
# raise-in-block: void fail(int n) { RaiseException(0xE0000000 + n, 0, 0, 0); } void part0(void) { __try { fail(4); } __except (1) { put(1); put(2); fail(1); put(3); } } int main(void) { __try { part0(); put(4); } __except (1) { put(GetExceptionCode() % 256); } put(5); return 0; }
=> 0 1 / 2 / 1 / 5 / exit 0
# raise-in-call: void fail(int n) { RaiseException(0xE0000000 + n, 0, 0, 0); } void part1(void) { put(1); fail(1); put(2); } void part0(void) { part1(); put(3); } int main(void) { __try { part0(); put(4); } __except (1) { put(GetExceptionCode() % 256); } put(5); return 0; }
=> 0 1 / 1 / 5 / exit 0
# raise-in-choosing: void fail(int n) { RaiseException(0xE0000000 + n, 0, 0, 0); } void part0(void) { __try { put(1); fail(1); put(2); } __except (GetExceptionCode() == 0xE0000003) { put(3); } put(4); } int main(void) { __try { part0(); put(5); } __except (1) { put(GetExceptionCode() % 256); } put(6); return 0; }
=> 0 1 / 1 / 6 / exit 0
# raise-in-colliding: void fail(int n) { RaiseException(0xE0000000 + n, 0, 0, 0); } void part0(void) { __try { put(1); fail(1); put(2); } __finally { put(3); if (AbnormalTermination()) fail(3); } put(4); } int main(void) { __try { part0(); put(5); } __except (1) { put(GetExceptionCode() % 256); } put(6); return 0; }
=> 0 1 / 3 / 3 / 6 / exit 0
# raise-in-continuing: void fail(int n) { RaiseException(0xE0000000 + n, 0, 0, 0); } int mending(unsigned code) { put(code % 256); protect((void *)0x20000000, 2); return code == 0xC0000025 || code == 0xC0000094 ? 1 : -1; } void part0(void) { __try { put(1); fail(1); put(2); } __except (mending(GetExceptionCode())) { put(3); } } int main(void) { __try { part0(); put(4); } __except (1) { put(GetExceptionCode() % 256); } put(5); return 0; }
=> 0 1 / 1 / 2 / 4 / 5 / exit 0
# raise-in-filter: void fail(int n) { RaiseException(0xE0000000 + n, 0, 0, 0); } int begun0; int part1(void) { begun0 = begun0 + 1; if (begun0 > 1) return 1; put(1); fail(1); put(2); return 1; } void part0(void) { __try { fail(6); } __except (part1()) { put(3); } } int main(void) { __try { part0(); put(4); } __except (1) { put(GetExceptionCode() % 256); } put(5); return 0; }
=> 0 1 / 3 / 4 / 5 / exit 0
# raise-in-finishing: void fail(int n) { RaiseException(0xE0000000 + n, 0, 0, 0); } void part0(void) { __try { put(1); fail(1); put(2); } __finally { put(3 + AbnormalTermination()); } put(5); } int main(void) { __try { part0(); put(6); } __except (1) { put(GetExceptionCode() % 256); } put(7); return 0; }
=> 0 1 / 4 / 1 / 7 / exit 0
# raise-in-handler: void fail(int n) { RaiseException(0xE0000000 + n, 0, 0, 0); } void part1(void) { put(1); fail(1); put(2); } void part0(void) { __try { fail(5); } __finally { part1(); put(3); } } int main(void) { __try { part0(); put(4); } __except (1) { put(GetExceptionCode() % 256); } put(5); return 0; }
=> 0 1 / 1 / 5 / exit 0
# raise-in-loop: void fail(int n) { RaiseException(0xE0000000 + n, 0, 0, 0); } void part0(void) { int n0; for (n0 = 0; n0 < 2; n0++) { put(1); fail(1); put(2); put(3); } } int main(void) { __try { part0(); put(4); } __except (1) { put(GetExceptionCode() % 256); } put(5); return 0; }
=> 0 1 / 1 / 5 / exit 0
# raise-in-nesting: int asked; void fail(int n) { RaiseException(0xE0000000 + n, 0, 0, 0); } int raising(void) { asked = asked + 1; if (asked == 1) fail(2); return 0; } void part0(void) { __try { put(1); fail(1); put(2); } __except (raising()) { put(3); } } int main(void) { __try { part0(); put(4); } __except (1) { put(GetExceptionCode() % 256); } put(5); return 0; }
=> 0 1 / 2 / 5 / exit 0
# raise-in-searching: void fail(int n) { RaiseException(0xE0000000 + n, 0, 0, 0); } void part0(void) { __try { put(1); fail(1); put(2); } __except (put(3), 0) { put(4); } } int main(void) { __try { part0(); put(5); } __except (1) { put(GetExceptionCode() % 256); } put(6); return 0; }
=> 0 1 / 3 / 1 / 6 / exit 0
# return-in-accepting: void part0(void) { __try { put(1); return; } __except (put(2), 1) { put(3); } } int main(void) { __try { part0(); put(4); } __except (1) { put(GetExceptionCode() % 256); } put(5); return 0; }
=> 0 1 / 4 / 5 / exit 0
# return-in-block: void fail(int n) { RaiseException(0xE0000000 + n, 0, 0, 0); } void part0(void) { __try { fail(4); } __except (1) { put(1); put(2); return; } } int main(void) { __try { part0(); put(3); } __except (1) { put(GetExceptionCode() % 256); } put(4); return 0; }
=> 0 1 / 2 / 3 / 4 / exit 0
# return-in-call: void part1(void) { put(1); return; } void part0(void) { part1(); put(2); } int main(void) { __try { part0(); put(3); } __except (1) { put(GetExceptionCode() % 256); } put(4); return 0; }
=> 0 1 / 2 / 3 / 4 / exit 0
# return-in-choosing: void part0(void) { __try { put(1); return; } __except (GetExceptionCode() == 0xE0000003) { put(2); } put(3); } int main(void) { __try { part0(); put(4); } __except (1) { put(GetExceptionCode() % 256); } put(5); return 0; }
=> 0 1 / 4 / 5 / exit 0
# return-in-colliding: void fail(int n) { RaiseException(0xE0000000 + n, 0, 0, 0); } void part0(void) { __try { put(1); return; } __finally { put(2); if (AbnormalTermination()) fail(3); } put(3); } int main(void) { __try { part0(); put(4); } __except (1) { put(GetExceptionCode() % 256); } put(5); return 0; }
=> 0 1 / 2 / 3 / 5 / exit 0
# return-in-continuing: int mending(unsigned code) { put(code % 256); protect((void *)0x20000000, 2); return code == 0xC0000025 || code == 0xC0000094 ? 1 : -1; } void part0(void) { __try { put(1); return; } __except (mending(GetExceptionCode())) { put(2); } } int main(void) { __try { part0(); put(3); } __except (1) { put(GetExceptionCode() % 256); } put(4); return 0; }
=> 0 1 / 3 / 4 / exit 0
# return-in-filter: void fail(int n) { RaiseException(0xE0000000 + n, 0, 0, 0); } int begun0; int part1(void) { begun0 = begun0 + 1; if (begun0 > 1) return 1; put(1); return 1; return 1; } void part0(void) { __try { fail(6); } __except (part1()) { put(2); } } int main(void) { __try { part0(); put(3); } __except (1) { put(GetExceptionCode() % 256); } put(4); return 0; }
=> 0 1 / 2 / 3 / 4 / exit 0
# return-in-finishing: void part0(void) { __try { put(1); return; } __finally { put(2 + AbnormalTermination()); } put(4); } int main(void) { __try { part0(); put(5); } __except (1) { put(GetExceptionCode() % 256); } put(6); return 0; }
=> 0 1 / 3 / 5 / 6 / exit 0
# return-in-handler: void fail(int n) { RaiseException(0xE0000000 + n, 0, 0, 0); } void part1(void) { put(1); return; } void part0(void) { __try { fail(5); } __finally { part1(); put(2); } } int main(void) { __try { part0(); put(3); } __except (1) { put(GetExceptionCode() % 256); } put(4); return 0; }
=> 0 1 / 2 / 5 / 4 / exit 0
# return-in-loop: void part0(void) { int n0; for (n0 = 0; n0 < 2; n0++) { put(1); return; put(2); } } int main(void) { __try { part0(); put(3); } __except (1) { put(GetExceptionCode() % 256); } put(4); return 0; }
=> 0 1 / 3 / 4 / exit 0
# return-in-nesting: int asked; void fail(int n) { RaiseException(0xE0000000 + n, 0, 0, 0); } int raising(void) { asked = asked + 1; if (asked == 1) fail(2); return 0; } void part0(void) { __try { put(1); return; } __except (raising()) { put(2); } } int main(void) { __try { part0(); put(3); } __except (1) { put(GetExceptionCode() % 256); } put(4); return 0; }
=> 0 1 / 3 / 4 / exit 0
# return-in-searching: void part0(void) { __try { put(1); return; } __except (put(2), 0) { put(3); } } int main(void) { __try { part0(); put(4); } __except (1) { put(GetExceptionCode() % 256); } put(5); return 0; }
=> 0 1 / 4 / 5 / exit 0
";
