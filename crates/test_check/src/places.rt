//! Lvalues and addresses.

use crate::verdict::all_as_wanted;
use std::test::Fail;

/// Lvalues, and the operand of `&` (C11, 6.3.2.1 and 6.5.3.2). A fault is at the operand's first
/// token.
const LVALUES: &str = r"
int a[3]; int g; int *p; void *v; int main(void){ p = a; p = &g; p = &a[1]; p = &*p; p = &(g); p = &*a; int **w = &p; v = &p; return 0; } => accepted
int a[3]; int g; int *p; void *v; int main(void){ int x; x = 1; (x) = 2; ((x)) += 3; *p = 4; a[1] = 5; *(a + 1) = 6; return 0; } => accepted
int a[3]; int g; int *p; void *v; int main(void){ g = a[0] = 3; p++; (p)--; ++*p; ++a[2]; return 0; } => accepted
int a[3]; int g; int *p; void *v; int main(void){ a = p; return 0; } => NotLvalue 50
int a[3]; int g; int *p; void *v; int main(void){ a++; return 0; } => NotLvalue 50
int a[3]; int g; int *p; void *v; int main(void){ ++a; return 0; } => NotLvalue 52
int a[3]; int g; int *p; void *v; int main(void){ a += 1; return 0; } => NotLvalue 50
int a[3]; int g; int *p; void *v; int main(void){ &a; return 0; } => NotLvalue 51
int a[3]; int g; int *p; void *v; int main(void){ int x; &x; return 0; } => accepted
int a[3]; int g; int *p; void *v; int main(void){ int x; &(x); return 0; } => accepted
int a[3]; int g; int *p; void *v; int main(void){ int x; return &x == 0; return 0; } => accepted
int a[3]; int g; int *p; void *v; int main(void){ &1; return 0; } => NotLvalue 51
int a[3]; int g; int *p; void *v; int main(void){ &(1 + g); return 0; } => NotLvalue 51
int a[3]; int g; int *p; void *v; int main(void){ 1 = 2; return 0; } => NotLvalue 50
int a[3]; int g; int *p; void *v; int main(void){ -g = 2; return 0; } => NotLvalue 50
int a[3]; int g; int *p; void *v; int main(void){ ++1; return 0; } => NotLvalue 52
int a[3]; int g; int *p; void *v; int main(void){ ++g++; return 0; } => NotLvalue 52
int a[3]; int g; int *p; void *v; int main(void){ (g + 1) = 2; return 0; } => NotLvalue 50
int a[3]; int g; int *p; void *v; int main(void){ (a) = p; return 0; } => NotLvalue 50
int a[3]; int g; int *p; void *v; int main(void){ EXCEPTION_EXECUTE_HANDLER = 1; return 0; } => NotLvalue 50
int a[3]; int g; int *p; void *v; int main(void){ &EXCEPTION_CONTINUE_SEARCH; return 0; } => NotLvalue 51
int a[3]; int g; int *p; void *v; int main(void){ & &g; return 0; } => NotLvalue 52
int a[3]; int g; int *p; void *v; int main(void){ (g = 1) = 2; return 0; } => NotLvalue 50
int a[3]; int g; int *p; void *v; int main(void){ g++ += 1; return 0; } => NotLvalue 50
int a[3]; int g; int *p; void *v; int f(int x){ return &x == 0; } int main(void){  return 0; } => accepted
int a[3]; int g; int *p; void *v; int f(int x){ return x; } int main(void){ f(1) = 2; return 0; } => NotLvalue 76
int a[3]; int g; int *p; void *v; int f(int x){ return x; } int main(void){ &f(1); return 0; } => NotLvalue 77
int a[3]; int g; int *p; void *v; int main(void){ char *c = &g; return 0; } => TypeClash 60
int a[3]; int g; int *p; void *v; int main(void){ p = &p; return 0; } => TypeClash 54
int main(void){ int x; return &x == 0; } => accepted
int main(void){ char c; int *p = &c; return 0; } => TypeClash 33
int main(void){ int x; &(x + 1); return 0; } => NotLvalue 24
int main(void){ int x; & &x; return 0; } => NotLvalue 25
int main(void){ int *p; int **q = &p; *q = *&p; return 0; } => accepted
";

/// Local arrays: their names are pointers and no lvalues, they have no initialiser, and an element
/// or more (C11, 6.3.2.1 p3, 6.7.6.2 and 6.7.9).
const LOCAL_ARRAYS: &str = r"
int main(void){ int a[4]; a[1] = 5; *a = 6; int *p = a; p = &a[2]; p = a + 1; return a[3]; } => accepted
int main(void){ int a[4], b, *c[2], **d = c; c[0] = &b; return a == &b; } => accepted
int main(void){ for (int a[2], i = 0; i < 2; i++) a[i] = i; return 0; } => accepted
int main(void){ char a[3]; { short a[2]; short *p = a; } char *q = a; return 0; } => accepted
int main(void){ int a[4]; a = 0; return 0; } => NotLvalue 26
int main(void){ int a[4]; &a; return 0; } => NotLvalue 27
int main(void){ int a[4]; &(a); return 0; } => NotLvalue 27
int main(void){ int a[4]; a++; return 0; } => NotLvalue 26
int main(void){ int a[4]; a(); return 0; } => UnknownName 26
int main(void){ int a[4]; int a; return 0; } => Duplicate 30
int main(void){ int a[4]; char *p = a; return 0; } => TypeClash 36
int main(void){ int a[0]; return 0; } => TypeClash 22
int main(void){ void a[4]; return 0; } => TypeClash 21
int main(void){ void a[18446744073709551615]; return 0; } => TypeClash 21
int main(void){ int a[4] = 1; return 0; } => BadInitialiser 27
int main(void){ int a[4] = (1); return 0; } => BadInitialiser 27
int main(void){ int a[4] = q; return 0; } => UnknownName 27
int main(void){ int a[4] = 1 + q; return 0; } => BadInitialiser 27
int main(void){ int a[0] = 1; return 0; } => TypeClash 22
";

#[test]
fn local_arrays(rt: HostRuntime) -> Result<(), Fail> {
    all_as_wanted(&rt, rt.alloc(), &[LOCAL_ARRAYS])
}

#[test]
fn lvalues(rt: HostRuntime) -> Result<(), Fail> {
    all_as_wanted(&rt, rt.alloc(), &[LVALUES])
}
