//! The depth of the meaning, at its limit of 1,000 and one above it.
//!
//! An activation counts 1, a filter or `__finally` block that runs 2, and each of them as much from
//! when an unwinding has left it until that lands.

/// As deep as may be.
pub const WITHIN: &str = r"
# activations:
int s(int n){ if (n == 0) return 0; return s(n - 1) + 1; }
int main(void){ put(s(998)); return 0; }
=> 0 998 / exit 0
# a filter:
int r(int n){ if (n == 0) RaiseException(0xE0000001,0,0,0); else r(n - 1); return 0; }
int main(void){ __try{ r(996); } __except(2){ put(1); } return 0; }
=> 0 raise E0000001 0 / filter 1 / answer 2 / except E0000001 / 1 / exit 0
# a finally block:
int s(int n){ if (n == 0) return 0; return s(n - 1) + 1; }
int main(void){ __try{ } __finally{ put(s(996)); } return 0; }
=> 0 finally 1 0 / 996 / exit 0
# activations that an unwinding has left:
int r(int n){ if (n == 0) RaiseException(0xE0000001,0,0,0); else r(n - 1); return 0; }
int s(int n){ if (n == 0) return 0; return s(n - 1) + 1; }
int main(void) {
  __try{ __try{ r(495); } __finally{ put(s(500)); } } __except(1){ put(7); }
  return 0;
}
=> 0 raise E0000001 0 / finally 1 1 / 500 / except E0000001 / 7 / exit 0
# none of them after the landing:
int r(int n){ if (n == 0) RaiseException(0xE0000001,0,0,0); else r(n - 1); return 0; }
int s(int n){ if (n == 0) return 0; return s(n - 1) + 1; }
int main(void){ __try{ r(495); } __except(1){ put(s(998)); } return 0; }
=> 0 raise E0000001 0 / except E0000001 / 998 / exit 0
# a block that a second unwinding has left:
int r(int n){ if (n == 0) RaiseException(0xE0000001,0,0,0); else r(n - 1); return 0; }
int s(int n){ if (n == 0) return 0; return s(n - 1) + 1; }
int main(void) {
  __try{ __try{ __try{ r(300); } __finally{ r(300); } } __finally{ put(s(392)); } } __except(1){ }
  return 0;
}
=> 0 raise E0000001 0 / finally 1 1 / raise E0000001 0 / finally 2 1 / 392 / except E0000001 / exit 0
# a filter that an unwinding has left:
int r(int n){ if (n == 0) RaiseException(0xE0000001,0,0,0); else r(n - 1); return 0; }
int s(int n){ if (n == 0) return 0; return s(n - 1) + 1; }
int c;
int bad(void){ c = c + 1; if (c == 1) r(300); return 0; }
int main(void) {
  __try {
    __try {
      __try{ RaiseException(0xE0000002,0,0,0); } __except(bad()){ }
    } __finally {
      put(s(692));
    }
  } __except(1) {
  }
  return 0;
}
=> 0 raise E0000002 0 / filter 1 / raise E0000001 0 / filter 1 / answer 0 / finally 2 1 / 692 / except E0000001 / exit 0
";

/// One deeper.
pub const DEEPER: &str = r"
# activations:
int s(int n){ if (n == 0) return 0; return s(n - 1) + 1; }
int main(void){ put(s(999)); return 0; }
=> 15 deep 1001
# a filter:
int r(int n){ if (n == 0) RaiseException(0xE0000001,0,0,0); else r(n - 1); return 0; }
int main(void){ __try{ r(997); } __except(2){ put(1); } return 0; }
=> 15 raise E0000001 0 / deep 1001
# a finally block:
int s(int n){ if (n == 0) return 0; return s(n - 1) + 1; }
int main(void){ __try{ } __finally{ put(s(997)); } return 0; }
=> 15 finally 1 0 / deep 1001
# activations that an unwinding has left:
int r(int n){ if (n == 0) RaiseException(0xE0000001,0,0,0); else r(n - 1); return 0; }
int s(int n){ if (n == 0) return 0; return s(n - 1) + 1; }
int main(void) {
  __try{ __try{ r(495); } __finally{ put(s(501)); } } __except(1){ put(7); }
  return 0;
}
=> 15 raise E0000001 0 / finally 1 1 / deep 1001
# none of them after the landing:
int r(int n){ if (n == 0) RaiseException(0xE0000001,0,0,0); else r(n - 1); return 0; }
int s(int n){ if (n == 0) return 0; return s(n - 1) + 1; }
int main(void){ __try{ r(495); } __except(1){ put(s(999)); } return 0; }
=> 15 raise E0000001 0 / except E0000001 / deep 1001
# a block that a second unwinding has left:
int r(int n){ if (n == 0) RaiseException(0xE0000001,0,0,0); else r(n - 1); return 0; }
int s(int n){ if (n == 0) return 0; return s(n - 1) + 1; }
int main(void) {
  __try{ __try{ __try{ r(300); } __finally{ r(300); } } __finally{ put(s(393)); } } __except(1){ }
  return 0;
}
=> 15 raise E0000001 0 / finally 1 1 / raise E0000001 0 / finally 2 1 / deep 1001
# a filter that an unwinding has left:
int r(int n){ if (n == 0) RaiseException(0xE0000001,0,0,0); else r(n - 1); return 0; }
int s(int n){ if (n == 0) return 0; return s(n - 1) + 1; }
int c;
int bad(void){ c = c + 1; if (c == 1) r(300); return 0; }
int main(void) {
  __try {
    __try {
      __try{ RaiseException(0xE0000002,0,0,0); } __except(bad()){ }
    } __finally {
      put(s(693));
    }
  } __except(1) {
  }
  return 0;
}
=> 15 raise E0000002 0 / filter 1 / raise E0000001 0 / filter 1 / answer 0 / finally 2 1 / deep 1001
";
