//! Functions of many locals: what they weigh in the depth, their further steps, and their frames.
//!
//! A function of at most 256 locals weighs 1, and 1 more for each 1,024 more that are begun.

/// As deep as may be, of functions of 256, 257, 1,280 and 1,281 locals, which weigh 1, 2, 2 and 3.
pub const WITHIN: &str = r"
# weight 1:
int r(int n){ int x$255#, a$; if (n == 0) return 0; return r(n - 1) + 1; }
int main(void){ put(r(998)); return 0; }
=> 0 998 / exit 0
# the least of weight 2:
int r(int n){ int x$256#, a$; if (n == 0) return 0; return r(n - 1) + 1; }
int main(void){ put(r(498)); return 0; }
=> 0 498 / exit 0
# the most of weight 2:
int r(int n){ int x$1279#, a$; if (n == 0) return 0; return r(n - 1) + 1; }
int main(void){ put(r(498)); return 0; }
=> 0 498 / exit 0
# weight 3:
int r(int n){ int x$1280#, a$; if (n == 0) return 0; return r(n - 1) + 1; }
int main(void){ put(r(332)); return 0; }
=> 0 332 / exit 0
";

/// One call deeper.
pub const DEEPER: &str = r"
# weight 1:
int r(int n){ int x$255#, a$; if (n == 0) return 0; return r(n - 1) + 1; }
int main(void){ put(r(999)); return 0; }
=> 15 deep 1001
# the least of weight 2:
int r(int n){ int x$256#, a$; if (n == 0) return 0; return r(n - 1) + 1; }
int main(void){ put(r(499)); return 0; }
=> 15 deep 1001
# the most of weight 2:
int r(int n){ int x$1279#, a$; if (n == 0) return 0; return r(n - 1) + 1; }
int main(void){ put(r(499)); return 0; }
=> 15 deep 1001
# weight 3:
int r(int n){ int x$1280#, a$; if (n == 0) return 0; return r(n - 1) + 1; }
int main(void){ put(r(333)); return 0; }
=> 15 deep 1001
";

/// An activation of weight 2 takes one step more. `main` takes 5 steps, its statements and their
/// expressions. `f` takes 259: its 257 names, the `return` and its number; and that one.
pub const STEPS: &str = r"
# enough; --turns 265:
int f(void){ int x$256#, a$; return 7; }
int main(void){ put(f()); return 0; }
=> 0 7 / exit 0
# one fewer; --turns 264:
int f(void){ int x$256#, a$; return 7; }
int main(void){ put(f()); return 0; }
=> 12 7 / out of steps 264
";

/// A frame of several pages: an exception leaves it, whose block reaches its furthest local. One
/// local more than the limit is too many.
pub const FRAMES: &str = r"
# several pages:
int g(int *p) {
  int x = 3$4000#, a$; a3999 = 5;
  __try{ *p = x; } __finally{ put(a3999 + x); }
  return 0;
}
int main(void){ __try{ g(0); } __except(1){ put(9); } return 0; }
=> 0 raise C0000005 0 write 0000000000000000 / finally 1 1 / 8 / except C0000005 / 9 / exit 0
# one local more: int f(void){ int x$65536#, a$; return 0; } int main(void){ return f(); }
=> 2 ! refused TooMany 513188 locals
";

/// `f` has as many locals as may be, and `main` registers that `f` saves.
pub const LARGEST: &str = r"
int f(int n) {
  int x = n$65535#, a$; a0 = 1; a1 = 2; a2 = 3; a3 = 4; a4 = 5; a5 = 6; a65534 = x + a5;
  if (n) RaiseException(0xE0000001,0,0,0);
  return a65534;
}
int main(void) {
  int p = 1; int q = 2; int r = 3; int s = 4; int t = 5; int u = 6; int v = 7; put(f(0));
  __try{ f(1); } __except(1){ put(p + q + r + s + t + u + v); }
  return 0;
}
";

/// What it shows.
pub const LARGEST_SHOWN: &str = r"
# the largest: 
=> 0 6 / raise E0000001 0 / except E0000001 / 28 / exit 0
";
