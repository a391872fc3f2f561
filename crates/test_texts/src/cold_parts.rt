//! Functions with cold parts: `else` branches that hold a call and no `__try`.

/// What a cold part does, and ways out of it: its end, a `return`, a `break`, a `continue`, an
/// exception.
pub const COLD: &str = r"
# a fault in a cold part:
int g(int n){ if (n) put(1); else { put(2); *(int*)0 = 1; } return 0; }
int main(void){ __try{ g(0); } __except(1){ put(3); } return 0; }
=> 0 2 / raise C0000005 0 write 0000000000000000 / except C0000005 / 3 / exit 0
# its end and a return:
int g(int n){ if (n) put(1); else { put(2); if (n == 0) return 7; } return 8; }
int main(void){ put(g(0)); put(g(1)); return 0; }
=> 0 2 / 7 / 1 / 8 / exit 0
# jumps out of it:
int main(void) {
  int i;
  for (i = 0; i < 5; i++) {
    if (i != 1) put(i); else { put(100); continue; }
    if (i < 3) put(10 + i); else { put(200); break; }
  }
  put(i); return 0;
}
=> 0 0 / 10 / 100 / 2 / 12 / 3 / 200 / 3 / exit 0
# nested branches:
int g(int n) {
  if (n == 0) put(0); else {
    if (n == 1) put(1); else { if (n == 2) put(2); else put(3); }
    put(9);
  }
  return n;
}
int main(void){ g(0); g(1); g(2); g(3); return 0; }
=> 0 0 / 1 / 9 / 2 / 9 / 3 / 9 / exit 0
# two of one function:
int g(int n){ if (n) { if (n == 1) put(1); else put(2); } else put(3); return n; }
int main(void){ g(0); g(1); g(2); return 0; }
=> 0 3 / 1 / 2 / exit 0
# locals in registers:
int g(int n) {
  int a = 1; int b = 2;
  if (n) put(a); else { int c = 3; while (c > 0){ put(a + b + c); c = c - 1; a = a + 1; } }
  return a + b;
}
int main(void){ put(g(0)); put(g(1)); return 0; }
=> 0 6 / 6 / 6 / 6 / 1 / 3 / exit 0
# a call that raises:
int r(int n){ RaiseException(0xE0000000 + n,0,0,0); return n; }
int g(int n){ int x = 5; if (n) put(1); else { x = x + r(n + 1); put(x); } return x; }
int main(void){ int p = 1; int q = 2; __try{ g(0); } __except(2){ put(p + q); } return 0; }
=> 0 raise E0000001 0 / filter 1 / answer 2 / except E0000001 / 3 / exit 0
# continued in it:
int f(void){ protect((void*)0x20000000,2); return -1; }
int g(int n){ int k = 6; if (n) return 1; else { put(*(int*)0x20000000 + k); put(4); } return 2; }
int main(void){ __try{ put(g(0)); } __except(f()){ put(9); } return 0; }
=> 0 raise C0000005 0 read 0000000020000000 / filter 1 / answer -1 / 6 / 4 / 2 / exit 0
# a block runs for it:
int g(int n){ if (n) put(1); else { put(2); RaiseException(0xE0000001,0,0,0); } return 0; }
int h(int n){ __try{ g(n); } __finally{ put(4); } return 0; }
int main(void){ __try{ if (1) h(0); else put(8); } __except(1){ put(3); } return 0; }
=> 0 2 / raise E0000001 0 / finally 1 1 / 4 / except E0000001 / 3 / exit 0
# a walk from it:
void s(void){ walk(); }
int g(int n){ if (n) put(1); else s(); return n; }
int main(void){ g(0); return 0; }
=> 0 at s / at g / at main / exit 0
# a collided unwinding:
void r(void){ if (0) put(1); else RaiseException(0xE0000002,0,0,0); }
int main(void) {
  __try{ __try{ RaiseException(0xE0000001,0,0,0); } __finally{ r(); } } __except(1){ put(5); }
  return 0;
}
=> 0 raise E0000001 0 / finally 1 1 / raise E0000002 0 / except E0000002 / 5 / exit 0
";
