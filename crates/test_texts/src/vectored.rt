//! Programs with vectored handlers.

/// Whom they are asked about, in which order, and what their answers do: handlers that raise,
/// that change the list while they are asked, that are leaf functions, and that are walked.
pub const HANDLERS: &str = r"
# vectored_handler_asked_first:
int v(unsigned c, unsigned f){ put(c == 0xE0000001); return 0; }
int main(void) {
  AddVectoredExceptionHandler(1, v);
  __try{ RaiseException(0xE0000001,0,0,0); } __except(2){ put(3); }
  return 0;
}
=> 0 raise E0000001 0 / 1 / filter 1 / answer 2 / except E0000001 / 3 / exit 0
# vectored_handler_continues:
int v(unsigned c, unsigned f){ protect((void*)0x20000000,2); return -1; }
int main(void){ AddVectoredExceptionHandler(1, v); put(*(int*)0x20000000); return 0; }
=> 0 raise C0000005 0 read 0000000020000000 / 0 / exit 0
# RaiseException returns:
int v(unsigned c, unsigned f){ return -1; }
int main(void) {
  int x = 6; AddVectoredExceptionHandler(1, v); RaiseException(0xE0000001,0,0,0); put(x);
  return 0;
}
=> 0 raise E0000001 0 / 6 / exit 0
# nobody handles it:
int v(unsigned c, unsigned f){ put(1); return 7; }
int main(void) {
  AddVectoredExceptionHandler(0, v);
  __try{ RaiseException(0xE0000001,0,0,0); } __finally{ put(2); }
  return 0;
}
=> 10 raise E0000001 0 / 1 / unhandled E0000001
# in front and behind:
int a(unsigned c, unsigned f){ put(1); return 0; }
int b(unsigned c, unsigned f){ put(2); return 0; }
int d(unsigned c, unsigned f){ put(3); return 0; }
int main(void) {
  AddVectoredExceptionHandler(0, a); AddVectoredExceptionHandler(0, b);
  AddVectoredExceptionHandler(7, d);
  __try{ RaiseException(0xE0000001,0,0,0); } __except(1){ put(4); }
  return 0;
}
=> 0 raise E0000001 0 / 3 / 1 / 2 / except E0000001 / 4 / exit 0
# the second of three continues:
int a(unsigned c, unsigned f){ put(1); return 0; }
int b(unsigned c, unsigned f){ put(2); return -1; }
int d(unsigned c, unsigned f){ put(3); return 0; }
int main(void) {
  AddVectoredExceptionHandler(0, a); AddVectoredExceptionHandler(0, b);
  AddVectoredExceptionHandler(0, d);
  __try{ RaiseException(0xE0000001,0,0,0); put(4); } __except(1){ put(5); }
  return 0;
}
=> 0 raise E0000001 0 / 1 / 2 / 4 / exit 0
# answers of the list:
int a(unsigned c, unsigned f){ put(1); return 0; }
int b(unsigned c, unsigned f){ put(2); return 0; }
int d(unsigned c, unsigned f){ put(3); return 0; }
int main(void) {
  put(AddVectoredExceptionHandler(0, a)); put(AddVectoredExceptionHandler(1, a));
  put(RemoveVectoredExceptionHandler(b)); put(RemoveVectoredExceptionHandler(a));
  put(RemoveVectoredExceptionHandler(a)); put(AddVectoredExceptionHandler(1, (b)));
  put(RemoveVectoredExceptionHandler(((b)))); return 0;
}
=> 0 1 / 0 / 0 / 1 / 0 / 1 / 1 / exit 0
# the first argument is evaluated:
int n;
int v(unsigned c, unsigned f){ put(n); return -1; }
int g(void){ n = 5; return 0; }
int main(void){ put(AddVectoredExceptionHandler(g(), v)); RaiseException(1,0,0,0); return n; }
=> 0 1 / raise 00000001 0 / 5 / exit 5
# flags:
int v(unsigned c, unsigned f){ put(c == 0xE0000003); put(f); return 0; }
int main(void) {
  AddVectoredExceptionHandler(1, v);
  __try{ RaiseException(0xE0000003,3,0,0); } __except(1){ put(9); }
  __try{ RaiseException(0xE0000003,2,0,0); } __except(1){ put(8); }
  return 0;
}
=> 0 raise E0000003 1 / 1 / 1 / except E0000003 / 9 / raise E0000003 0 / 1 / 0 / except E0000003 / 8 / exit 0
# continues what may not be continued:
int v(unsigned c, unsigned f){ put(c == 0xC0000025); if (c == 0xC0000025) return 0; return -1; }
int main(void) {
  AddVectoredExceptionHandler(1, v);
  __try{ RaiseException(0xE0000003,1,0,0); } __except(1){ put(GetExceptionCode() == 0xC0000025); }
  return 0;
}
=> 0 raise E0000003 1 / 0 / raise C0000025 1 / 1 / except C0000025 / 1 / exit 0
# a filter continues what may not be continued:
int v(unsigned c, unsigned f){ put(c == 0xC0000025); return 0; }
int g(unsigned c){ if (c == 0xC0000025) return 1; return -1; }
int main(void) {
  AddVectoredExceptionHandler(1, v);
  __try{ RaiseException(0xE0000003,1,0,0); } __except(g(GetExceptionCode())){ put(4); }
  return 0;
}
=> 0 raise E0000003 1 / 0 / filter 1 / answer -1 / raise C0000025 1 / 1 / filter 1 / answer 1 / except C0000025 / 4 / exit 0
# a handler that raises:
int n;
int v(unsigned c, unsigned f) {
  n = n + 1;
  if (n == 1) RaiseException(0xE0000002,0,0,0);
  put(c == 0xE0000002); return 0;
}
int main(void) {
  AddVectoredExceptionHandler(1, v);
  __try{ RaiseException(0xE0000001,0,0,0); } __except(1){ put(GetExceptionCode() == 0xE0000002); }
  return n;
}
=> 0 raise E0000001 0 / raise E0000002 0 / 1 / except E0000002 / 1 / exit 2
# a target out of a handler:
int n;
int v(unsigned c, unsigned f) {
  n = n + 1;
  if (n > 1) return 0;
  RaiseException(0xE0000002,0,0,0); return 0;
}
void g(void) {
  __try{ RaiseException(0xE0000001,0,0,0); } __finally{ put(AbnormalTermination()); }
}
int main(void) {
  AddVectoredExceptionHandler(1, v);
  __try{ g(); } __except(GetExceptionCode() == 0xE0000002){ put(9); }
  return n;
}
=> 0 raise E0000001 0 / raise E0000002 0 / filter 2 / answer 1 / finally 1 1 / 1 / except E0000002 / 9 / exit 2
# a handler with a __try:
int v(unsigned c, unsigned f) {
  if (c == 0xC0000005) return 0;
  __try{ *(int*)0 = 1; } __except(1){ put(5); }
  return 0;
}
int main(void) {
  AddVectoredExceptionHandler(1, v);
  __try{ RaiseException(0xE0000001,0,0,0); } __except(2){ put(6); }
  return 0;
}
=> 0 raise E0000001 0 / raise C0000005 0 write 0000000000000000 / except C0000005 / 5 / filter 1 / answer 2 / except E0000001 / 6 / exit 0
# takes itself out:
int a(unsigned c, unsigned f){ put(RemoveVectoredExceptionHandler(a)); return 0; }
int b(unsigned c, unsigned f){ put(2); return 0; }
int main(void) {
  AddVectoredExceptionHandler(0, a); AddVectoredExceptionHandler(0, b);
  __try{ RaiseException(0xE0000001,0,0,0); } __except(1){ put(3); }
  __try{ RaiseException(0xE0000001,0,0,0); } __except(1){ put(4); }
  return 0;
}
=> 0 raise E0000001 0 / 1 / except E0000001 / 3 / raise E0000001 0 / 2 / except E0000001 / 4 / exit 0
# puts another behind itself:
int b(unsigned c, unsigned f){ put(2); return 0; }
int a(unsigned c, unsigned f){ put(AddVectoredExceptionHandler(0, b)); return 0; }
int main(void) {
  AddVectoredExceptionHandler(0, a);
  __try{ RaiseException(0xE0000001,0,0,0); } __except(1){ put(3); }
  __try{ RaiseException(0xE0000001,0,0,0); } __except(1){ put(4); }
  return 0;
}
=> 0 raise E0000001 0 / 1 / 2 / except E0000001 / 3 / raise E0000001 0 / 0 / 2 / except E0000001 / 4 / exit 0
# puts another in front of itself:
int b(unsigned c, unsigned f){ put(2); return 0; }
int a(unsigned c, unsigned f){ put(AddVectoredExceptionHandler(1, b)); return 0; }
int main(void) {
  AddVectoredExceptionHandler(0, a);
  __try{ RaiseException(0xE0000001,0,0,0); } __except(1){ put(3); }
  return 0;
}
=> 0 raise E0000001 0 / 1 / 0 / except E0000001 / 3 / exit 0
# the sixteenth and the seventeenth:
int h0(unsigned c, unsigned f){ put(0); return 0; }
int h1(unsigned c, unsigned f){ put(1); return 0; }
int h2(unsigned c, unsigned f){ put(2); return 0; }
int h3(unsigned c, unsigned f){ put(3); return 0; }
int h4(unsigned c, unsigned f){ put(4); return 0; }
int h5(unsigned c, unsigned f){ put(5); return 0; }
int h6(unsigned c, unsigned f){ put(6); return 0; }
int h7(unsigned c, unsigned f){ put(7); return 0; }
int h8(unsigned c, unsigned f){ put(8); return 0; }
int h9(unsigned c, unsigned f){ put(9); return 0; }
int h10(unsigned c, unsigned f){ put(10); return 0; }
int h11(unsigned c, unsigned f){ put(11); return 0; }
int h12(unsigned c, unsigned f){ put(12); return 0; }
int h13(unsigned c, unsigned f){ put(13); return 0; }
int h14(unsigned c, unsigned f){ put(14); return 0; }
int h15(unsigned c, unsigned f){ put(15); return 0; }
int h16(unsigned c, unsigned f){ put(16); return 0; }
int main(void) {
  int n = 0; n = n + AddVectoredExceptionHandler(0, h0);
  n = n + AddVectoredExceptionHandler(0, h1); n = n + AddVectoredExceptionHandler(0, h2);
  n = n + AddVectoredExceptionHandler(0, h3); n = n + AddVectoredExceptionHandler(0, h4);
  n = n + AddVectoredExceptionHandler(0, h5); n = n + AddVectoredExceptionHandler(0, h6);
  n = n + AddVectoredExceptionHandler(0, h7); n = n + AddVectoredExceptionHandler(0, h8);
  n = n + AddVectoredExceptionHandler(0, h9); n = n + AddVectoredExceptionHandler(0, h10);
  n = n + AddVectoredExceptionHandler(0, h11); n = n + AddVectoredExceptionHandler(0, h12);
  n = n + AddVectoredExceptionHandler(0, h13); n = n + AddVectoredExceptionHandler(0, h14);
  n = n + AddVectoredExceptionHandler(0, h15); put(n); put(AddVectoredExceptionHandler(0, h16));
  put(AddVectoredExceptionHandler(1, h16)); put(RemoveVectoredExceptionHandler(h3));
  put(AddVectoredExceptionHandler(1, h16));
  __try{ RaiseException(0xE0000001,0,0,0); } __except(1){ put(100); }
  return 0;
}
=> 0 16 / 0 / 0 / 1 / 1 / raise E0000001 0 / 16 / 0 / 1 / 2 / 4 / 5 / 6 / 7 / 8 / 9 / 10 / 11 / 12 / 13 / 14 / 15 / except E0000001 / 100 / exit 0
# in a filter:
int v(unsigned c, unsigned f){ put(c == 0xC0000005); return 0; }
int g(void){ __try{ *(int*)0 = 1; } __except(1){ put(7); } return 1; }
int main(void) {
  AddVectoredExceptionHandler(1, v);
  __try{ RaiseException(0xE0000001,0,0,0); } __except(g()){ put(8); }
  return 0;
}
=> 0 raise E0000001 0 / 0 / filter 1 / raise C0000005 0 write 0000000000000000 / 1 / except C0000005 / 7 / answer 1 / except E0000001 / 8 / exit 0
# in a block of an unwinding:
int v(unsigned c, unsigned f){ put(c == 0xE0000002); return 0; }
void g(void) {
  __try {
    RaiseException(0xE0000001,0,0,0);
  } __finally {
    __try{ RaiseException(0xE0000002,0,0,0); } __except(1){ put(2); }
  }
}
int main(void) {
  AddVectoredExceptionHandler(1, v);
  __try{ g(); } __except(1){ put(3); }
  return 0;
}
=> 0 raise E0000001 0 / 0 / finally 1 1 / raise E0000002 0 / 1 / except E0000002 / 2 / except E0000001 / 3 / exit 0
# a leaf:
int v(unsigned c, unsigned f){ return f; }
int w(unsigned c, unsigned f){ return -1; }
int main(void) {
  put(AddVectoredExceptionHandler(1, v));
  __try{ RaiseException(0xE0000001,1,0,0); } __except(1){ put(2); }
  put(AddVectoredExceptionHandler(0, w)); RaiseException(0xE0000001,0,0,0); put(3); return 0;
}
=> 0 1 / raise E0000001 1 / except E0000001 / 2 / 1 / raise E0000001 0 / 3 / exit 0
# continued in a leaf that is asked:
int w(unsigned c, unsigned f) {
  if (c == 0xC0000005){ protect((void*)0x20000000,2); return -1; }
  return 0;
}
int v(unsigned c, unsigned f){ return *(int*)0x20000000; }
int main(void) {
  AddVectoredExceptionHandler(0, w); AddVectoredExceptionHandler(0, v);
  __try{ RaiseException(0xE0000001,0,0,0); } __except(1){ put(2); }
  return 0;
}
=> 0 raise E0000001 0 / raise C0000005 0 read 0000000020000000 / except E0000001 / 2 / exit 0
# a handler that is walked:
int v(unsigned c, unsigned f){ walk(); return 0; }
void g(void){ RaiseException(0xE0000001,0,0,0); }
int main(void) {
  AddVectoredExceptionHandler(1, v);
  __try{ g(); } __except(1){ walk(); }
  return 0;
}
=> 0 raise E0000001 0 / at v / at g / at main / except E0000001 / at main / exit 0
# walked past:
int deep(int n){ if (n) return deep(n - 1); walk(); return 0; }
int v(unsigned c, unsigned f){ deep(1); return -1; }
int main(void) {
  AddVectoredExceptionHandler(1, v);
  __try{ RaiseException(0xE0000001,0,0,0); } __finally{ put(1); }
  return 0;
}
=> 0 raise E0000001 0 / at deep / at deep / at v / at main / finally 1 0 / 1 / exit 0
# locals of whom it interrupts:
int v(unsigned c, unsigned f) {
  int a = 9; int b = 8; int d = 7; protect((void*)0x20000000,2);
  if (a + b + d == 24) return -1;
  return 0;
}
int main(void) {
  int x = 5; int y = 7; int z = 11; AddVectoredExceptionHandler(1, v);
  x = *(int*)0x20000000 + x * y; put(x); put(y); put(z); return 0;
}
=> 0 raise C0000005 0 read 0000000020000000 / 35 / 7 / 11 / exit 0
# variables of the data stack:
int sum(int *p, int n){ int t = 0; int i; for (i = 0; i < n; i++) t = t + p[i]; return t; }
int v(unsigned c, unsigned f) {
  int a[4]; a[1] = c; a[2] = f; a[3] = 1; put(sum(a, 4)); return -1;
}
int main(void) {
  int k[3]; k[2] = 4; AddVectoredExceptionHandler(1, v); RaiseException(6,0,0,0); put(sum(k, 3));
  return 0;
}
=> 0 raise 00000006 0 / 7 / 4 / exit 0
# functions that are no handlers:
int v(unsigned c, unsigned f){ put(4); return 0; }
int u(int x, long long y, char z){ return x + y + z; }
void g(void){ put(u(1, 2, 3)); }
int main(void) {
  AddVectoredExceptionHandler(1, v); g();
  __try{ RaiseException(0xE0000001,0,0,0); } __except(1){ g(); }
  RemoveVectoredExceptionHandler(v);
  __try{ RaiseException(0xE0000001,0,0,0); } __except(1){ put(5); }
  return 0;
}
=> 0 6 / raise E0000001 0 / 4 / except E0000001 / 6 / raise E0000001 0 / except E0000001 / 5 / exit 0
# in an else branch:
int v(unsigned c, unsigned f){ put(c); return -1; }
void g(int n) {
  if (n) put(1); else {
    put(AddVectoredExceptionHandler(0, v)); RaiseException(2,0,0,0);
    put(RemoveVectoredExceptionHandler(v));
  }
}
int main(void){ g(1); g(0); return 0; }
=> 0 1 / 1 / raise 00000002 0 / 2 / 1 / exit 0
# a handler of its caller:
int n;
int v(unsigned c, unsigned f){ n = n + 1; if (n < 3) RaiseException(n,0,0,0); put(c); return -1; }
int main(void){ AddVectoredExceptionHandler(1, v); RaiseException(9,0,0,0); put(n); return 0; }
=> 0 raise 00000009 0 / raise 00000001 0 / raise 00000002 0 / 2 / 1 / 9 / 3 / exit 0
# only taken out:
int v(unsigned c, unsigned f){ put(c); return -1; }
int main(void) {
  put(RemoveVectoredExceptionHandler(v));
  __try{ RaiseException(0xE0000001,0,0,0); } __except(2){ put(3); }
  return 0;
}
=> 0 0 / raise E0000001 0 / filter 1 / answer 2 / except E0000001 / 3 / exit 0
# the low half of the first argument:
int a(unsigned c, unsigned f){ put(1); return 0; }
int b(unsigned c, unsigned f){ put(2); return 0; }
int main(void) {
  put(AddVectoredExceptionHandler(0x100000000, a));
  put(AddVectoredExceptionHandler(0x100000000, b));
  __try{ RaiseException(0xE0000001,0,0,0); } __except(1){ put(3); }
  return 0;
}
=> 0 1 / 1 / raise E0000001 0 / 1 / 2 / except E0000001 / 3 / exit 0
# many locals:
int v(unsigned c, unsigned f){ int x = 3$300#, a$; a299 = x + f; put(a299 + c); return -1; }
int main(void) {
  int y = 6; AddVectoredExceptionHandler(1, v); RaiseException(1,0,0,0); put(y); return 0;
}
=> 0 raise 00000001 0 / 4 / 6 / exit 0
# goes behind the others and is asked again:
int a(unsigned c, unsigned f) {
  put(1); RemoveVectoredExceptionHandler(a); AddVectoredExceptionHandler(0, a); return 0;
}
int b(unsigned c, unsigned f){ put(2); return 0; }
int main(void) {
  AddVectoredExceptionHandler(0, a); AddVectoredExceptionHandler(0, b);
  __try{ RaiseException(0xE0000001,0,0,0); } __except(1){ put(9); }
  return 0;
}
=> 0 raise E0000001 0 / 1 / 1 / except E0000001 / 9 / exit 0
# returns out of a __try:
int v(unsigned c, unsigned f) {
  __try{ return 0; } __finally{ put(AbnormalTermination()); }
  return -1;
}
int main(void) {
  AddVectoredExceptionHandler(1, v);
  __try{ RaiseException(1,0,0,0); } __except(1){ put(2); }
  return 0;
}
=> 0 raise 00000001 0 / finally 1 1 / 1 / except 00000001 / 2 / exit 0
# out of a handler through its __finally block:
int v(unsigned c, unsigned f) {
  RemoveVectoredExceptionHandler(v);
  __try{ *(int*)8 = 1; } __finally{ put(AbnormalTermination()); walk(); }
  return -1;
}
int main(void) {
  AddVectoredExceptionHandler(1, v);
  __try{ RaiseException(1,0,0,0); } __except(GetExceptionCode() == 0xC0000005){ put(3); walk(); }
  return 0;
}
=> 0 raise 00000001 0 / raise C0000005 0 write 0000000000000008 / filter 2 / answer 1 / finally 1 1 / 1 / at v / at main / except C0000005 / 3 / at main / exit 0
# collided out of a handler:
int v(unsigned c, unsigned f) {
  if (c == 2){ RemoveVectoredExceptionHandler(v); RaiseException(3,0,0,0); }
  return 0;
}
void g(void){ __try{ RaiseException(1,0,0,0); } __finally{ put(4); RaiseException(2,0,0,0); } }
int main(void) {
  AddVectoredExceptionHandler(1, v);
  __try{ g(); } __except(1){ put(GetExceptionCode()); }
  return 0;
}
=> 0 raise 00000001 0 / finally 1 1 / 4 / raise 00000002 0 / raise 00000003 0 / except 00000003 / 3 / exit 0
# continues a division:
int n; int k;
int v(unsigned c, unsigned f){ n = 5; k = k + 1; if (k < 3) return -1; return 0; }
int main(void) {
  AddVectoredExceptionHandler(1, v);
  __try{ put(10 / n); } __except(1){ put(k); }
  put(10 / n); return 0;
}
=> 0 raise C0000094 0 / raise C0000094 0 / raise C0000094 0 / except C0000094 / 3 / 2 / exit 0
# a filter adds one:
int a(unsigned c, unsigned f){ put(1); return 0; }
int b(unsigned c, unsigned f){ put(2); return 0; }
int main(void) {
  __try {
    RaiseException(0xE0000001,0,0,0);
  } __except(AddVectoredExceptionHandler(1, a)) {
    put(5);
  }
  __try{ RaiseException(0xE0000001,0,0,0); } __except(1){ put(9); }
  return 0;
}
=> 0 raise E0000001 0 / filter 1 / answer 1 / except E0000001 / 5 / raise E0000001 0 / 1 / except E0000001 / 9 / exit 0
# nobody handles the exception of a handler:
int v(unsigned c, unsigned f) {
  RemoveVectoredExceptionHandler(v); RaiseException(2,0,0,0); return -1;
}
int main(void){ AddVectoredExceptionHandler(1, v); RaiseException(1,0,0,0); put(6); return 0; }
=> 10 raise 00000001 0 / raise 00000002 0 / unhandled 00000002
# writes its parameters:
void w(unsigned *p){ *p = *p + 1; }
int v(unsigned c, unsigned f){ w(&c); w(&f); put(c); put(f); return -(c == 2); }
int main(void){ AddVectoredExceptionHandler(1, v); RaiseException(1,0,0,0); put(5); return 0; }
=> 0 raise 00000001 0 / 2 / 1 / 5 / exit 0
# asked while it is asked:
int n;
int v(unsigned c, unsigned f) {
  int k = ++n; put(k);
  if (k < 4){ __try{ RaiseException(c + 1,0,0,0); } __except(1){ put(10 + k); } }
  put(20 + k); return 0;
}
int main(void) {
  AddVectoredExceptionHandler(1, v);
  __try{ RaiseException(1,0,0,0); } __except(1){ put(9); }
  return 0;
}
=> 0 raise 00000001 0 / 1 / raise 00000002 0 / 2 / raise 00000003 0 / 3 / raise 00000004 0 / 4 / 24 / except 00000004 / 13 / 23 / except 00000003 / 12 / 22 / except 00000002 / 11 / 21 / except 00000001 / 9 / exit 0
";

/// A handler counts 2 in the depth beside its activation: `main`, 996 activations, and these 3. One
/// of 257 locals weighs 2: `main`, 995 activations, and these 4.
pub const WITHIN: &str = r"
# within the depth:
int v(unsigned c, unsigned f){ put(1); return -1; }
int r(int n){ if (n == 0) RaiseException(0xE0000001,0,0,0); else r(n - 1); return 0; }
int main(void){ AddVectoredExceptionHandler(1, v); r(995); put(2); return 0; }
=> 0 raise E0000001 0 / 1 / 2 / exit 0
# many locals:
int v(unsigned c, unsigned f){ int x$256#, a$; a255 = 1; put(a255); return -1; }
int r(int n){ if (n == 0) RaiseException(0xE0000001,0,0,0); else r(n - 1); return 0; }
int main(void){ AddVectoredExceptionHandler(1, v); r(994); put(2); return 0; }
=> 0 raise E0000001 0 / 1 / 2 / exit 0
";

/// One deeper.
pub const DEEPER: &str = r"
# one deeper:
int v(unsigned c, unsigned f){ put(1); return -1; }
int r(int n){ if (n == 0) RaiseException(0xE0000001,0,0,0); else r(n - 1); return 0; }
int main(void){ AddVectoredExceptionHandler(1, v); r(996); put(2); return 0; }
=> 15 raise E0000001 0 / deep 1001
# many locals:
int v(unsigned c, unsigned f){ int x$256#, a$; a255 = 1; put(a255); return -1; }
int r(int n){ if (n == 0) RaiseException(0xE0000001,0,0,0); else r(n - 1); return 0; }
int main(void){ AddVectoredExceptionHandler(1, v); r(995); put(2); return 0; }
=> 15 raise E0000001 0 / deep 1001
";

/// A handler that is asked takes a step, and the name of one in a call takes none: 3 steps for the
/// first statement, 6 for the second, a raise, a handler, 3 for its statement, and 2 for the last.
/// One of 257 locals takes 257 more for their names, and one for what it weighs above 1.
pub const STEPS: &str = r"
# a handler is asked; --turns 16:
int v(unsigned c, unsigned f){ return -1; }
int main(void){ AddVectoredExceptionHandler(1, v); RaiseException(1,0,0,0); return 0; }
=> 0 raise 00000001 0 / exit 0
# one step fewer; --turns 15:
int v(unsigned c, unsigned f){ return -1; }
int main(void){ AddVectoredExceptionHandler(1, v); RaiseException(1,0,0,0); return 0; }
=> 12 raise 00000001 0 / out of steps 15
# many locals; --turns 274:
int v(unsigned c, unsigned f){ int x$256#, a$; return -1; }
int main(void){ AddVectoredExceptionHandler(1, v); RaiseException(1,0,0,0); return 0; }
=> 0 raise 00000001 0 / exit 0
# many locals and one step fewer; --turns 273:
int v(unsigned c, unsigned f){ int x$256#, a$; return -1; }
int main(void){ AddVectoredExceptionHandler(1, v); RaiseException(1,0,0,0); return 0; }
=> 12 raise 00000001 0 / out of steps 273
";
