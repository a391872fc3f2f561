//! The cases of rule 22, frames.

/// The programs, in the order of their names.
pub const PROGRAMS: &str = r"
# caller_of_eight_parameters: int callee(int a, int b, int c, int d, int e, int f, int g, int h) { a = a * 2; d = d * 3; h = h * 4; if (h > 0) RaiseException(0xE0000001, 0, 0, 0); return a + b + c + d + e + f + g + h; } int main(void) { int a = 1, b = 2, c = 3, d = 4, e = 5, f = 6, g = 7, h = 8; __try { put(callee(h, g, f, e, d, c, b, a)); } __except (1) { put(a + 10 * b + 100 * c + 1000 * d); put(e + 10 * f + 100 * g + 1000 * h); } return 0; }
=> 0 4321 / 8765 / exit 0
# characters: void fail(void) { RaiseException(0xE0000001, 0, 0, 0); } int main(void) { char before = 1; char text[13]; char after = 2; int i; for (i = 0; i < 13; i++) text[i] = i + 65; __try { text[12] = 90; fail(); } __except (put(before + after), 1) { put(text[0]); put(text[11]); put(text[12]); } return 0; }
=> 0 3 / 65 / 76 / 90 / exit 0
# eight_parameters: void fail(void) { RaiseException(0xE0000001, 0, 0, 0); } long long test(int a, int b, int c, int d, int e, int f, int g, int h) { __try { __try { fail(); } __finally { e = e + 1; put(h * 10 + g); } } __except (put(f * 10 + e), 1) { put(d * 10 + c); } return a + 10 * b + 100 * c + 1000 * d + 10000 * e + 100000 * f + 1000000 * g + 10000000 * h; } int main(void) { put(test(1, 2, 3, 4, 5, 6, 7, 8)); return 0; }
=> 0 65 / 87 / 43 / 87664321 / exit 0
# filter_below_a_large_frame: int decide(int n) { int a[1100]; int i; for (i = 0; i < 1100; i++) a[i] = i; return a[1099] == n; } void test(int n) { int a[1100]; int i; for (i = 0; i < 1100; i++) a[i] = 2 * i; __try { RaiseException(0xE0000001, 0, 0, 0); } __except (decide(n)) { put(a[1099]); } } int main(void) { test(1099); __try { test(5); } __except (1) { put(1); } return 0; }
=> 0 2198 / 1 / exit 0
# large: int sum(int *a, int n) { int i; int s = 0; for (i = 0; i < n; i++) s = s + a[i]; if (s > 100) RaiseException(0xE0000001, 0, 0, 0); return s; } int large(int n) { int a[1100]; int i; for (i = 0; i < 1100; i++) a[i] = n; return sum(a, 1100) + a[1099]; } int main(void) { int x = 5; __try { put(large(0)); put(large(1)); } __except (1) { put(x); } put(x + 1); return 0; }
=> 0 0 / 5 / 6 / exit 0
# large_and_small: void fail(void) { RaiseException(0xE0000001, 0, 0, 0); } void small(int n) { __try { if (n) fail(); } __finally { put(n); } } void large(int n) { char a[9000]; a[0] = 1; a[8999] = n; __try { small(a[8999] + a[0]); } __finally { put(a[8999]); } } void middle(int n) { int a[20]; a[19] = n; large(a[19] + 1); put(11); } int main(void) { int x = 9; __try { middle(6); } __except (1) { put(x); } return 0; }
=> 0 8 / 7 / 9 / exit 0
# large_frame_that_handles: void fail(void) { RaiseException(0xE0000001, 0, 0, 0); } int main(void) { int a[1100]; int i; for (i = 0; i < 1100; i++) a[i] = i; __try { a[1099] = 7; fail(); } __except (put(a[1098]), a[1098] = 8, 1) { put(a[1099] + a[1098]); } put(a[0] + a[1]); return 0; }
=> 0 1098 / 15 / 1 / exit 0
# large_frame_with_a_finally_block: void fail(void) { RaiseException(0xE0000001, 0, 0, 0); } void large(int n) { int a[1100]; int i; for (i = 0; i < 1100; i++) a[i] = i + n; __try { a[0] = 3; fail(); } __finally { put(a[0] + a[1099]); } } int main(void) { __try { large(1); } __except (1) { put(1); } return 0; }
=> 0 1103 / 1 / exit 0
# large_in_a_recursion: void deep(int n) { int a[600]; int i; for (i = 0; i < 600; i++) a[i] = n + i; __try { if (n == 0) RaiseException(0xE0000001, 0, 0, 0); deep(n - 1); } __finally { put(a[599] - a[0] + n); } } int main(void) { __try { deep(3); } __except (1) { put(1); } return 0; }
=> 0 599 / 600 / 601 / 602 / 1 / exit 0
# many_locals: void fail(int n) { RaiseException(0xE0000000 + n, 0, 0, 0); } int test(int n) { int a = n, b = n + 1, c = n + 2, d = n + 3, e = n + 4, f = n + 5, g = n + 6, h = n + 7; int i = n + 8, j = n + 9, k = n + 10, l = n + 11, m = n + 12, o = n + 13, p = n + 14; __try { b = a + b; o = o + p; fail(a); c = 0; } __except (1) { put(a + b + c + d + e + f); put(g + h + i + j + k); } return l + m + o + p; } int main(void) { put(test(1)); return 0; }
=> 0 22 / 45 / 69 / exit 0
# without_locals: int count; void three(void) { count = count + 1; RaiseException(0xE0000001, 0, 0, 0); } void two(void) { three(); put(11); } void one(void) { two(); put(12); } int main(void) { __try { one(); } __except (1) { put(count); } return 0; }
=> 0 1 / exit 0
";
