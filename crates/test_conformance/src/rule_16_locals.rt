//! The cases of rule 16, locals.

/// The programs, in the order of their names.
pub const PROGRAMS: &str = r"
# array: void fill(int *to, int n) { int i; for (i = 0; i < n; i++) to[i] = i * i; RaiseException(0xE0000001, 0, 0, 0); } int main(void) { int squares[8]; __try { fill(squares, 8); } __except (put(squares[3]), 1) { put(squares[7]); } return 0; }
=> 0 9 / 49 / exit 0
# changed_before_a_fault: int zero; int main(void) { int x = 1; __try { x = 2; put(7 / zero); x = 3; } __except (1) { put(x); } return 0; }
=> 0 2 / exit 0
# changed_by_a_finally_block: void fail(void) { RaiseException(0xE0000001, 0, 0, 0); } int main(void) { int x = 1; __try { __try { x = 2; fail(); } __finally { x = x * 10; } } __except (1) { put(x); } return 0; }
=> 0 20 / exit 0
# changed_by_the_filter: void fail(void) { RaiseException(0xE0000001, 0, 0, 0); } int main(void) { int x = 1; __try { fail(); } __except (x = x + 5, 1) { put(x); } put(x + 10); return 0; }
=> 0 6 / 16 / exit 0
# changed_in_the_section: void fail(void) { RaiseException(0xE0000001, 0, 0, 0); } int main(void) { int x = 1; __try { x = 2; fail(); x = 3; } __except (1) { put(x); } put(x + 10); return 0; }
=> 0 2 / 12 / exit 0
# kept: void busy(int n) { int a = n * 2; int b = n * 3; int c = n * 4; put(a + b + c); RaiseException(0xE0000001, 0, 0, 0); } int main(void) { int x = 1; int y = 2; int z = 3; __try { busy(x + y + z); } __except (1) { put(x); put(y); put(z); } return 0; }
=> 0 54 / 1 / 2 / 3 / exit 0
# loop_counter: void fail(int n) { RaiseException(0xE0000000 + n, 0, 0, 0); } int main(void) { int i; int sum = 0; for (i = 0; i < 10; i++) { __try { if (i % 3 == 0) fail(i); sum = sum + i; } __except (1) { sum = sum + 100; } } put(i); put(sum); return 0; }
=> 0 10 / 427 / exit 0
# of_a_finally_block: int main(void) { __try { put(1); } __finally { int x = 2; __try { x = x + 1; } __finally { put(x); } put(x + 1); } return 0; }
=> 0 1 / 3 / 4 / exit 0
# of_a_finally_block_in_an_unwinding: void fail(void) { RaiseException(0xE0000001, 0, 0, 0); } int main(void) { int y = 5; __try { __try { fail(); } __finally { int x = y + 1; __try { fail(); } __except (put(x), 1) { x = x + y; } put(x); } } __except (1) { put(y); } return 0; }
=> 0 6 / 11 / 5 / exit 0
# of_a_nested_block: void fail(void) { RaiseException(0xE0000001, 0, 0, 0); } int main(void) { int x = 1; __try { int y = x + 1; { int z = y + 1; __try { fail(); } __except (put(x + y + z), 1) { put(z); } put(y); } } __except (1) { put(11); } return 0; }
=> 0 6 / 3 / 2 / exit 0
# of_each_width: void fail(void) { RaiseException(0xE0000001, 0, 0, 0); } int main(void) { char a = -1; unsigned char b = 254; short c = -300; unsigned d = 4000000000u; long long e = -5000000000; __try { a = a - 1; e = e - 1; fail(); } __except (put(a), put(b), 1) { put(c); put(d); put(e); } return 0; }
=> 0 -2 / 254 / -300 / 4000000000 / -5000000001 / exit 0
# of_the_caller: int deep(int n) { int a = n + 1; int b = n + 2; int c = n + 3; if (n == 0) RaiseException(0xE0000001, 0, 0, 0); a = deep(n - 1) + a; b = deep(n - 2) + b; return a + b + c; } int main(void) { int p = 10; int q = 20; int r = 30; int i; for (i = 1; i < 4; i++) { __try { p = p + i; put(deep(i)); q = 0; } __except (1) { r = r + p; } } put(p); put(q); put(r); return 0; }
=> 0 16 / 20 / 70 / exit 0
# parameters: void fail(int n) { RaiseException(0xE0000000 + n, 0, 0, 0); } int test(int a, int b, int c, int d, int e, int f) { __try { __try { fail(a); } __finally { put(a + b); } } __except (put(c + d), 1) { put(e + f); } return a + b + c + d + e + f; } int main(void) { put(test(1, 20, 300, 4000, 50000, 600000)); return 0; }
=> 0 4300 / 21 / 650000 / 654321 / exit 0
# read_by_a_finally_block: void fail(void) { RaiseException(0xE0000001, 0, 0, 0); } void test(int n) { int i; int sum = 0; __try { for (i = 0; i < n; i++) { sum = sum + i; if (i == 3) fail(); } } __finally { put(sum); put(i); } } int main(void) { test(3); __try { test(5); } __except (1) { put(1); } return 0; }
=> 0 3 / 3 / 6 / 3 / 1 / exit 0
# through_a_pointer: void change(int *place) { *place = 6; RaiseException(0xE0000001, 0, 0, 0); } int main(void) { int x = 5; __try { change(&x); } __except (put(x), x = x + 1, 1) { put(x); } return 0; }
=> 0 6 / 7 / exit 0
";
