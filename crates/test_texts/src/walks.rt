//! Programs that show the functions of their live activations.

/// A walk from a filter, from a block, after a collided unwinding, and at the greatest depth. A
/// filter and a `__finally` block are no activations.
pub const WALKS: &str = r"
# walk_in_filter_and_block:
void g(void){ walk(); RaiseException(0xE0000001,0,0,0); }
int f(void){ walk(); return 1; }
int main(void){ __try{ g(); } __except(f()){ walk(); } return 0; }
=> 0 at g / at main / raise E0000001 0 / filter 1 / at f / at g / at main / answer 1 / except E0000001 / at main / exit 0
# walk_after_collision:
void g(void){ RaiseException(0xE0000001,0,0,0); }
int q(void){ walk(); return 1; }
void h(void){ __try{ g(); } __finally{ RaiseException(0xE0000002,0,0,0); } }
int main(void){ __try{ h(); } __except(q()){ } return 0; }
=> 0 raise E0000001 0 / filter 2 / at q / at g / at h / at main / answer 1 / finally 1 1 / raise E0000002 0 / filter 2 / at q / at h / at main / answer 1 / except E0000002 / exit 0
# no caller: int main(void){ walk(); return 3; }
=> 0 at main / exit 3
# a filter itself: int main(void){ __try{ *(int*)0 = 1; } __except(walk(), 1){ walk(); } return 0; }
=> 0 raise C0000005 0 write 0000000000000000 / filter 1 / at main / answer 1 / except C0000005 / at main / exit 0
# a finally block itself:
void f(void){ __try{ return; } __finally{ walk(); } }
int main(void){ f(); walk(); return 0; }
=> 0 finally 1 1 / at f / at main / at main / exit 0
# one function twice:
int f(int n){ if (n) return f(n - 1); walk(); return n; }
int main(void){ return f(1); }
=> 0 at f / at f / at main / exit 0
# names that begin alike:
void _(void){ walk(); }
void _1(void){ _(); }
void walks(void){ _1(); }
int main(void){ walks(); return 0; }
=> 0 at _ / at _1 / at walks / at main / exit 0
# the greatest depth:
int r(int n){ if (n == 0){ walk(); return 0; } return r(n - 1); }
int main(void){ return r(998); }
=> 0 $999*at r / $at main / exit 0
# the greatest depth under a filter:
int w(void){ walk(); return 1; }
int r(int n){ if (n == 0) RaiseException(0xE0000001,0,0,0); else r(n - 1); return 0; }
int main(void){ __try{ r(995); } __except(w()){ walk(); } return 0; }
=> 0 raise E0000001 0 / filter 1 / at w / $996*at r / $at main / answer 1 / except E0000001 / at main / exit 0
";
