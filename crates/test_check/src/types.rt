//! Types of operands, arguments, results and conditions.

use crate::verdict::all_as_wanted;
use std::test::Fail;

/// Implicit conversions (C11, 6.3): between integers, between pointers of one type, between a
/// pointer and one to void, and of a literal 0 to a pointer. A fault is at the converted
/// expression's first token.
const CONVERSIONS: &str = r"
int *p; char *q; void *v; int x; int main(void){ p = 0; return 0; } => accepted
int *p; char *q; void *v; int x; int main(void){ p = (0); return 0; } => accepted
int *p; char *q; void *v; int x; int main(void){ p = 0u; return 0; } => accepted
int *p; char *q; void *v; int x; int main(void){ p = 0x0; return 0; } => accepted
int *p; char *q; void *v; int x; int main(void){ p = 00LL; return 0; } => accepted
int *p; char *q; void *v; int x; int main(void){ p = v; return 0; } => accepted
int *p; char *q; void *v; int x; int main(void){ v = p; return 0; } => accepted
int *p; char *q; void *v; int x; int main(void){ q = v; return 0; } => accepted
int *p; char *q; void *v; int x; int main(void){ x = 'a'; return 0; } => accepted
int *p; char *q; void *v; int x; int main(void){ x = 5000000000; return 0; } => accepted
int *p; char *q; void *v; int x; int main(void){ p = p; return 0; } => accepted
int *p; char *q; void *v; int x; int main(void){ unsigned char c = x; short s = c; long long l = s; x = l; return 0; } => accepted
int *p; char *q; void *v; int x; int *f(void){ return v; } void *g(void){ return p; } int *h(void){ return 0; } int main(void){ p = f(); v = g(); return 0; } => accepted
int *p; char *q; void *v; int x; int f(int *a, char c, void *b){ return c; } int main(void){ x = f(0, 300, q); x = f(v, x, 0); return 0; } => accepted
int main(void){ int *a = 0; void *b = a; int *c = b; long d = 'x'; return 0; } => accepted
int *p; char *q; void *v; int x; int main(void){ p = 1; return 0; } => TypeClash 53
int *p; char *q; void *v; int x; int main(void){ p = '\0'; return 0; } => TypeClash 53
int *p; char *q; void *v; int x; int main(void){ p = -0; return 0; } => TypeClash 53
int *p; char *q; void *v; int x; int main(void){ p = q; return 0; } => TypeClash 53
int *p; char *q; void *v; int x; int main(void){ q = p; return 0; } => TypeClash 53
int *p; char *q; void *v; int x; int main(void){ x = p; return 0; } => TypeClash 53
int *p; char *q; void *v; int x; int main(void){ p = x; return 0; } => TypeClash 53
int *p; char *q; void *v; int x; int main(void){ p = (1); return 0; } => TypeClash 53
int *p; char *q; void *v; int x; int main(void){ p = (int)0; return 0; } => TypeClash 53
int *p; char *q; void *v; int x; int main(void){ x = v; return 0; } => TypeClash 53
int *p; char *q; void *v; int x; int main(void){ x = (p); return 0; } => TypeClash 53
int *p; char *q; void *v; int x; int main(void){ p = p == 0; return 0; } => TypeClash 53
int *p; char *q; void *v; int x; void g(void){} int main(void){ x = g(); return 0; } => TypeClash 68
int *p; char *q; void *v; int x; int *f(void){ return q; } int main(void){  return 0; } => TypeClash 54
int *p; char *q; void *v; int x; int f(void){ return p; } int main(void){  return 0; } => TypeClash 53
int *p; char *q; void *v; int x; int f(int *a, int b){ return b; } int main(void){ f(p, q); return 0; } => TypeClash 88
int *p; char *q; void *v; int x; int f(int *a, int b){ return b; } int main(void){ f(q, 1); return 0; } => TypeClash 85
int *p; char *q; void *v; int x; int main(void){ int *a = 1; return 0; } => TypeClash 58
int *p; char *q; void *v; int x; int main(void){ int a = p; return 0; } => TypeClash 57
int *p; char *q; void *v; int x; int main(void){ int **a = p; return 0; } => TypeClash 59
";

/// Casts between integers and pointers (C11, 6.5.4). A fault is at the parenthesis.
const CASTS: &str = r"
int *p; char *q; void *v; int x; int main(void){ p = (int *)x; q = (char *)p; v = (void *)5; x = (int)q; x = (char)v; x = (signed char)x; p = (int *)'\0'; return 0; } => accepted
int *p; char *q; void *v; int x; int main(void){ (void)x; return 0; } => TypeClash 49
int *p; char *q; void *v; int x; int main(void){ (void)p; return 0; } => TypeClash 49
int *p; char *q; void *v; int x; void g(void){} int main(void){ x = 1 + (int)g(); return 0; } => TypeClash 72
";

/// The branches of `?:` and the operands of `,` (C11, 6.5.15 and 6.5.17).
const BRANCHES: &str = r"
int *p; char *q; void *v; int x; void g(void){} int main(void){ x = x ? 1 : 'a'; p = x ? p : 0; p = x ? 0 : p; p = x ? p : p; p = x ? p : v; q = x ? v : p; x ? g() : g(); x = p ? 1 : 2; g(), x = 1; x = (g(), 1); p, g(); return 0; } => accepted
int *p; char *q; void *v; int x; void g(void){} int main(void){ x ? p : q; return 0; } => TypeClash 66
int *p; char *q; void *v; int x; void g(void){} int main(void){ x ? p : 1; return 0; } => TypeClash 66
int *p; char *q; void *v; int x; void g(void){} int main(void){ x ? g() : 1; return 0; } => TypeClash 66
int *p; char *q; void *v; int x; void g(void){} int main(void){ x ? p : g(); return 0; } => TypeClash 66
int *p; char *q; void *v; int x; void g(void){} int main(void){ x = x ? p : p; return 0; } => TypeClash 68
int *p; char *q; void *v; int x; void g(void){} int main(void){ p = x ? p : '\0'; return 0; } => TypeClash 70
int *p; char *q; void *v; int x; void g(void){} int main(void){ g() ? 1 : 2; return 0; } => TypeClash 68
int *p; char *q; void *v; int x; void g(void){} int main(void){ x = *(x ? p : v); return 0; } => TypeClash 68
int *p; char *q; void *v; int x; void g(void){} int main(void){ p = (x, q); return 0; } => TypeClash 68
int *p; char *q; void *v; int x; void g(void){} int main(void){ x = p ? p : 0; return 0; } => TypeClash 68
int *p; char *q; void *v; int x; void g(void){} int main(void){ x = (1, p); return 0; } => TypeClash 68
";

/// Conditions are integers or pointers (C11, 6.8.4 and 6.8.5), and filters are integers. A fault of
/// a condition is at the statement's keyword or the operator, one of a filter at its first token.
const CONDITIONS: &str = r"
int *p; char *q; void *v; int x; void g(void){} int main(void){ if (p) ; while (x) break; do ; while (v); for (;p;) break; for (;;) break; x = !p; x = p && x; x = v || q; return 0; } => accepted
int *p; char *q; void *v; int x; void g(void){} int main(void){ __try { } __except (x) { } __try { } __except ('a') { } __try { } __except (5000000000) { } return 0; } => accepted
int *p; char *q; void *v; int x; void g(void){} int main(void){ if (g()) ; return 0; } => TypeClash 64
int *p; char *q; void *v; int x; void g(void){} int main(void){ while (g()) ; return 0; } => TypeClash 64
int *p; char *q; void *v; int x; void g(void){} int main(void){ do ; while (g()); return 0; } => TypeClash 69
int *p; char *q; void *v; int x; void g(void){} int main(void){ for (;g();) ; return 0; } => TypeClash 64
int *p; char *q; void *v; int x; void g(void){} int main(void){ x = !g(); return 0; } => TypeClash 68
int *p; char *q; void *v; int x; void g(void){} int main(void){ x = x && g(); return 0; } => TypeClash 70
int *p; char *q; void *v; int x; void g(void){} int main(void){ x = g() || x; return 0; } => TypeClash 72
int *p; char *q; void *v; int x; void g(void){} int main(void){ if (g()) ; else ; return 0; } => TypeClash 64
int *p; char *q; void *v; int x; void g(void){} int main(void){ __try { } __except (p) { } return 0; } => TypeClash 84
int *p; char *q; void *v; int x; void g(void){} int main(void){ __try { } __except (g()) { } return 0; } => TypeClash 84
int *p; char *q; void *v; int x; void g(void){} int main(void){ __try { } __except ((p)) { } return 0; } => TypeClash 84
int *p; char *q; void *v; int x; void g(void){} int main(void){ __try { } __except (v) { } return 0; } => TypeClash 84
";

/// Calls (C11, 6.5.2.2). A fault of their number is at the name, and one of an argument at its
/// first token.
const CALLS: &str = r"
int f(void){ return 1; } int h(int a, int b){ return a; } int main(void){ f(); h(1, 2); put(f()); return 0; } => accepted
int *p; int main(void){ RaiseException('a', 5000000000, 0x0, 0u); protect(p, 2); protect((void *)16, 'a'); return 0; } => accepted
int f(void){ return 1; } int h(int a, int b){ return a; } int main(void){ f(1); return 0; } => ArgCount 74
int f(void){ return 1; } int h(int a, int b){ return a; } int main(void){ h(1); return 0; } => ArgCount 74
int f(void){ return 1; } int h(int a, int b){ return a; } int main(void){ h(1, 2, 3); return 0; } => ArgCount 74
int f(void){ return 1; } int h(int a, int b){ return a; } int main(void){ h(); return 0; } => ArgCount 74
int f(void){ return 1; } int h(int a, int b){ return a; } int main(void){ put(); return 0; } => ArgCount 74
int f(void){ return 1; } int h(int a, int b){ return a; } int main(void){ put(1, 2); return 0; } => ArgCount 74
int f(void){ return 1; } int h(int a, int b){ return a; } int main(void){ protect(0); return 0; } => ArgCount 74
int f(void){ return 1; } int h(int a, int b){ return a; } int main(void){ walk(1); return 0; } => ArgCount 74
int f(void){ return 1; } int h(int a, int b){ return a; } int main(void){ RaiseException(1, 0, 0); return 0; } => ArgCount 74
int f(void){ return 1; } int h(int a, int b){ return a; } int main(void){ RaiseException(1, 0, 0, 0, 0); return 0; } => ArgCount 74
int f(void){ return 1; } int h(int a, int b){ return a; } int main(void){ main(1); return 0; } => ArgCount 74
int f(void){ return 1; } int h(int a, int b){ return a; } int main(void){ h(1, h(2)); return 0; } => ArgCount 79
int *p; int main(void){ __try { } __except (GetExceptionCode(1)) { } return 0; } => ArgCount 44
int main(void){ __try { } __finally { AbnormalTermination(1); } return 0; } => ArgCount 38
int *p; int main(void){ RaiseException(1, 0, 1, 0); return 0; } => TypeClash 45
int *p; int main(void){ RaiseException(1, 0, 0, 1); return 0; } => TypeClash 48
int *p; int main(void){ RaiseException(1, 0, 0, '\0'); return 0; } => TypeClash 48
int *p; int main(void){ RaiseException(1, 0, -0, 0); return 0; } => TypeClash 45
int *p; int main(void){ RaiseException(p, 0, 0, 0); return 0; } => TypeClash 39
int *p; int main(void){ put(p); return 0; } => TypeClash 28
int *p; int main(void){ put(walk()); return 0; } => TypeClash 28
int *p; int main(void){ protect(1, 0); return 0; } => TypeClash 32
int *p; int main(void){ protect(p, p); return 0; } => TypeClash 35
int *p; int main(void){ RaiseException(1, 0, p, 0); return 0; } => TypeClash 45
";

/// `return` with and without a value (C11, 6.8.6.4). A fault is at the keyword.
const RETURNS: &str = r"
void f(void){ return; } void g(void){ } int h(void){ } int *k(void){ return 0; } int main(void){ return 'a'; } => accepted
void f(void){ return 1; } int main(void){  return 0; } => TypeClash 14
int f(void){ return; } int main(void){  return 0; } => TypeClash 13
int *f(void){ return; } int main(void){  return 0; } => TypeClash 14
void g(void){} void f(void){ return g(); } int main(void){  return 0; } => TypeClash 29
";

#[test]
fn types(rt: HostRuntime) -> Result<(), Fail> {
    all_as_wanted(
        &rt,
        rt.alloc(),
        &[CONVERSIONS, CASTS, BRANCHES, CONDITIONS, CALLS, RETURNS],
    )
}
