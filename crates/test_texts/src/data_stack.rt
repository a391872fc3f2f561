//! Functions with arrays of their own, and with variables of which an address is taken.
//!
//! The data stack is at 0x30000000. A function's part of it begins at its base, 805306384 for
//! `main`, and is rounded up to 16 bytes.

/// What such variables hold, and where they stand.
pub const VARIABLES: &str = r"
# local_array_sum:
int s(int *p, int n){ int t = 0; int i; for (i = 0; i < n; i++) t = t + p[i]; return t; }
int main(void){ int a[4]; a[1] = 5; a[3] = 7; put(s(a, 4)); put((long long)a); return 0; }
=> 0 12 / 805306384 / exit 0
# address_of_local_accepted: int main(void){ int x; return &x == 0; }
=> 0 exit 0
# a parameter:
int swap(int *a, int *b){ int t = *a; *a = *b; *b = t; return 0; }
int f(int x, int y){ swap(&x, &y); return 10 * x + y; }
int main(void){ put(f(1, 2)); return 0; }
=> 0 21 / exit 0
# natural alignment:
int main(void) {
  char c; long long l; short s; int i; put((long long)&c - 805306384);
  put((long long)&l - 805306384); put((long long)&s - 805306384); put((long long)&i - 805306384);
  return 0;
}
=> 0 0 / 8 / 16 / 20 / exit 0
# parameters come first:
int f(char a, long long b, char c) {
  short s; put((long long)&s - (long long)&a); put((long long)&c - (long long)&a);
  put((long long)&b - (long long)&a); put(a + b + c); return s;
}
int main(void){ put(f(1, 2, 3)); return 0; }
=> 0 18 / 16 / 8 / 6 / 0 / exit 0
# eight parameters:
int f(int a, int b, int c, int d, int e, int g, int h, int i) {
  int *p[8]; int k; int t = 0; p[0] = &a; p[1] = &b; p[2] = &c; p[3] = &d; p[4] = &e; p[5] = &g;
  p[6] = &h; p[7] = &i;
  for (k = 0; k < 8; k++) t = 10 * t + *p[k];
  return t;
}
int main(void){ put(f(1, 2, 3, 4, 5, 6, 7, 8)); return 0; }
=> 0 12345678 / exit 0
# narrow types:
int main(void) {
  char c = 255; unsigned char u = 255; short s = 65535; unsigned short v = 65535; char *p = &c;
  unsigned char *q = &u; short *r = &s; unsigned short *t = &v; put(c); put(u); put(s); put(v);
  *p = *p + 3; *q = *q + 3; *r = *r - 4; *t = *t + 4; put(c++); put(u += 2); put(--s); put(v);
  put(c); return 0;
}
=> 0 -1 / 255 / -1 / 65535 / 2 / 4 / -6 / 3 / 3 / exit 0
# arrays of each type:
int main(void) {
  char a[3]; short b[3]; long long c[3]; int *d[3]; int x = 6; a[2] = 300; b[2] = 70000;
  c[2] = 5000000000; d[2] = &x; put(a[2]); put(b[2]); put(c[2]); put(*d[2]);
  put((long long)b - (long long)a); put((long long)c - (long long)b);
  put((long long)d - (long long)c); put((long long)&x - (long long)d); return 0;
}
=> 0 44 / 4464 / 5000000000 / 6 / 4 / 12 / 24 / 24 / exit 0
# 0 each time:
int main(void) {
  int k;
  for (k = 0; k < 3; k++) {
    int a[5]; int x; int *p = &x; put(a[k] + a[4] + x); a[k] = 7; a[4] = 8; *p = 9;
  }
  return 0;
}
=> 0 0 / 0 / 0 / exit 0
# in the clause of a loop:
int main(void) {
  for (int a[3], i = 0, *p = &i; i < 3; (*p)++){ a[i] = a[0] + i + 1; put(a[i]); }
  return 0;
}
=> 0 1 / 3 / 4 / exit 0
# its own initialiser:
int main(void){ int x = 5; int y = *&x + 1; int z = (&z == 0) + y; put(z); return 0; }
=> 0 6 / exit 0
# a name that is declared again:
int main(void) {
  int x = 1; int *p = &x;
  { int x = 2; int *q = &x; put(q - p); *q = 5; put(x); }
  put(x);
  { int x = 3; put(x); }
  return 0;
}
=> 0 1 / 5 / 1 / 3 / exit 0
# parentheses: int main(void){ int x = 4; int *p = &(x); int *q = &((x)); *p = *q + 1; return x; }
=> 0 exit 5
# bytes outlive an activation:
int *f(void){ int x = 5; return &x; }
int main(void){ int *p = f(); put(*p); put((long long)p); return 0; }
=> 0 5 / 805306384 / exit 0
# a callee's part is above:
int f(int n){ int x = n; int *p = &x; if (n) f(n - 1); put((long long)p - 805306384); return *p; }
int main(void){ char c[17]; put(f(2)); return c[0]; }
=> 0 64 / 48 / 32 / 2 / exit 0
# a sort:
void sort(int *a, int n) {
  int i; int j;
  for (i = 0; i < n; i++) for (j = i + 1; j < n; j++) if (a[j] < a[i]) {
    int t = a[i]; a[i] = a[j]; a[j] = t;
  }
}
int main(void) {
  int a[5]; int k; a[0] = 3; a[1] = 1; a[2] = 5; a[3] = 2; a[4] = 4; sort(a, 5);
  for (k = 0; k < 5; k++) put(a[k]);
  return 0;
}
=> 0 1 / 2 / 3 / 4 / 5 / exit 0
";

/// Exceptions: what an `__except` and a `__finally` block finds of the data stack.
pub const EXCEPTIONS: &str = r"
# data_stack_pointer_in_handlers:
int g(void){ int b[4]; *(int*)0 = 1; return 0; }
int h(void){ int c = 3; int *q = &c; return (int)(long long)q; }
int main(void) {
  int x; int *p = &x;
  __try{ g(); } __except(put(h() - (int)(long long)p), 1){ put(h() - (int)(long long)p); }
  return 0;
}
=> 0 raise C0000005 0 write 0000000000000000 / filter 1 / 32 / answer 1 / except C0000005 / 16 / exit 0
# a function without such variables:
int g(void){ int b[4]; *(int*)0 = 1; return 0; }
int h(void){ int c = 3; int *q = &c; return (int)((long long)q - 805306384); }
int f(void){ __try{ g(); } __except(1){ put(h()); } return 0; }
int main(void){ f(); put(h()); return 0; }
=> 0 raise C0000005 0 write 0000000000000000 / except C0000005 / 0 / 0 / exit 0
# a finally block in an unwinding:
int g(void){ int b[4]; RaiseException(0xE0000001, 0, 0, 0); return 0; }
int h(void){ int c = 3; int *q = &c; return (int)((long long)q - 805306384); }
int f(void){ int y; int *p = &y; __try{ g(); } __finally{ put(h()); *p = 7; put(y); } return 0; }
int main(void){ __try{ f(); } __except(1){ put(h()); } return 0; }
=> 0 raise E0000001 0 / finally 1 1 / 16 / 7 / except E0000001 / 0 / exit 0
# a finally block at its body's end:
int h(void){ int c = 3; int *q = &c; return (int)((long long)q - 805306384); }
int f(void) {
  int y = 1; int *p = &y;
  __try{ *p = 2; } __finally{ put(h()); put(y); }
  put(h()); return 0;
}
int main(void){ f(); return 0; }
=> 0 finally 1 0 / 16 / 2 / 16 / exit 0
# a return through one:
int h(void){ int c = 3; int *q = &c; return (int)((long long)q - 805306384); }
int f(void) {
  int y = 1; int *p = &y;
  __try{ *p = 2; return *p; } __finally{ put(h()); *p = 9; }
  return 0;
}
int main(void){ put(f()); put(h()); return 0; }
=> 0 finally 1 1 / 16 / 2 / 0 / exit 0
# a filter reads and writes them:
int main(void) {
  int x = 3; int a[2]; int *p = &x; a[1] = 4;
  __try{ *(int*)0 = 1; } __except(put(x), put(a[1]), *p = 5, a[0] = 6, 1){ put(x); put(a[0]); }
  return 0;
}
=> 0 raise C0000005 0 write 0000000000000000 / filter 1 / 3 / 4 / answer 1 / except C0000005 / 5 / 6 / exit 0
# continued:
int fix(int **q){ protect(*q, 2); return -1; }
int main(void) {
  int *p = (int*)0x20000000;
  __try{ *p = 6; } __except(fix(&p)){ put(1); }
  put(*p); return 0;
}
=> 0 raise C0000005 0 write 0000000020000000 / filter 1 / answer -1 / 6 / exit 0
# to the data stack's end:
int main(void) {
  int a[2];
  __try{ put(a[1048571]); put(a[1048572]); } __except(1){ put(2); }
  return 0;
}
=> 0 0 / raise C0000005 0 read 0000000030400000 / except C0000005 / 2 / exit 0
# an array and many calls:
int g(int *p, int n) {
  int a[3]; a[n % 3] = n;
  if (n == 0) RaiseException(0xE0000001, 0, 0, 0);
  return g(a, n - 1) + *p;
}
int main(void){ int x = 1; __try{ g(&x, 9); } __except(1){ put(x); } return g(&x, 3); }
=> 10 raise E0000001 0 / except E0000001 / 1 / raise E0000001 0 / unhandled E0000001
";

/// As deep as may be, of functions with 4,080, 4,096 and 8,192 bytes on the data stack, which count
/// 1, 2 and 3 in the depth.
pub const WITHIN: &str = r"
# 4,080 bytes:
int r(int n){ if (n > 0) return r(n - 1) + 1; { long long a[510]; put(a[509]); } return 0; }
int main(void){ put(r(998)); return 0; }
=> 0 0 / 998 / exit 0
# 4,096 bytes:
int r(int n){ if (n > 0) return r(n - 1) + 1; { long long a[512]; put(a[511]); } return 0; }
int main(void){ put(r(498)); return 0; }
=> 0 0 / 498 / exit 0
# 8,192 bytes:
int r(int n){ if (n > 0) return r(n - 1) + 1; { long long a[1024]; put(a[1023]); } return 0; }
int main(void){ put(r(332)); return 0; }
=> 0 0 / 332 / exit 0
";

/// One call deeper.
pub const DEEPER: &str = r"
# 4,080 bytes:
int r(int n){ if (n > 0) return r(n - 1) + 1; { long long a[510]; put(a[509]); } return 0; }
int main(void){ put(r(999)); return 0; }
=> 15 deep 1001
# 4,096 bytes:
int r(int n){ if (n > 0) return r(n - 1) + 1; { long long a[512]; put(a[511]); } return 0; }
int main(void){ put(r(499)); return 0; }
=> 15 deep 1001
# 8,192 bytes:
int r(int n){ if (n > 0) return r(n - 1) + 1; { long long a[1024]; put(a[1023]); } return 0; }
int main(void){ put(r(333)); return 0; }
=> 15 deep 1001
";

/// An array's declaration takes a step more for each element, and an activation one more for each
/// 4,096 bytes. The reserved bytes before the first variable.
pub const STEPS: &str = r"
# ten elements; --turns 13: int main(void){ char a[10]; return 0; }
=> 0 exit 0
# one step fewer; --turns 12: int main(void){ char a[10]; return 0; }
=> 12 out of steps 12
# a weight of 2; --turns 10:
int f(void){ if (0){ long long a[512]; } return 7; }
int main(void){ put(f()); return 0; }
=> 0 7 / exit 0
# one step fewer again; --turns 9:
int f(void){ if (0){ long long a[512]; } return 7; }
int main(void){ put(f()); return 0; }
=> 12 7 / out of steps 9
# a reserved byte: int main(void){ int a[2]; put(a[-1]); return 0; }
=> 14 undefined 000000003000000C
";

/// The most bytes that the arrays of a function take, and the places of refusals.
pub const LIMITS: &str = r"
# 65,536 bytes: int main(void){ char a[65536]; return a[65535]; }
=> 0 exit 0
# with alignment: int main(void){ char a[1]; long long b[8191]; return b[8190] + a[0]; }
=> 0 exit 0
# of no bytes:
int f(void){ char a[65536]; { int x; int *p = &x; } return a[0]; }
int main(void){ char a[65536]; return 0; }
=> 0 exit 0
# one more: int main(void){ char a[65537]; return 0; }
=> 2 ! refused TooMany 23 arraybytes
# one more of the second: int main(void){ char a[1]; char b[65536]; return 0; }
=> 2 ! refused TooMany 34 arraybytes
# by alignment: int main(void){ char a[9]; long long b[8191]; return 0; }
=> 2 ! refused TooMany 39 arraybytes
# by what alignment leaves before others, 65,537 bytes where the sum is 65,530:
int main(void){ char a[1]; long long b[8191]; char c[1]; return 0; }
=> 2 ! refused TooMany 53 arraybytes
# as many as can be said: int main(void){ long long a[18446744073709551615]; return 0; }
=> 2 ! refused TooMany 28 arraybytes
";

/// Rules of such variables, each broken alone.
pub const RULES: &str = r"
# no elements: int main(void){ int a[0]; return 0; }
=> 2 ! refused TypeClash 22
# an initialiser: int main(void){ int a[2] = 1; return 0; }
=> 2 ! refused BadInitialiser 27
# the address of an array: int main(void){ int a[2]; &a; return 0; }
=> 2 ! refused NotLvalue 27
# an array assigned: int main(void){ int a[2]; a = 0; return 0; }
=> 2 ! refused NotLvalue 26
# of void: int main(void){ void v[3]; return 0; }
=> 2 ! refused TypeClash 21
# an array of arrays: int main(void){ int a[2][2]; return 0; }
=> 2 ! refused Unexpected 24
# no length: int main(void){ int a[]; return 0; }
=> 2 ! refused Unexpected 22
# a parameter as an array: int f(int a[2]){ return 0; } int main(void){ return 0; }
=> 2 ! refused Unexpected 11
";
