//! Declarations, scopes and the function that a run begins with.

use crate::verdict::all_as_wanted;
use std::test::Fail;

/// Initialisers of globals, lengths of arrays and variables of type void (C11, 6.7.6.2 and 6.7.9).
const INITIALISERS: &str = r"
int a = 5; int main(void){  return 0; } => accepted
int *a = 5; int main(void){  return 0; } => accepted
char a = 1000; int main(void){  return 0; } => accepted
int a[3] = {1, 2, 3}; int main(void){  return 0; } => accepted
int a[3] = {1}; int main(void){  return 0; } => accepted
int a[1]; int main(void){  return 0; } => accepted
int *a[2] = {0, 7}; int main(void){  return 0; } => accepted
char a[2] = {'x', -1}; int main(void){  return 0; } => accepted
int a = -'x'; int main(void){  return 0; } => accepted
void *a = -1; int main(void){  return 0; } => accepted
int f(void *b){ return b == 0; } int main(void){ void *x; return 0; } => accepted
int a = {5}; int main(void){  return 0; } => BadInitialiser 8
int *a = {0}; int main(void){  return 0; } => BadInitialiser 9
int a[2] = 5; int main(void){  return 0; } => BadInitialiser 11
int a[2] = -5; int main(void){  return 0; } => BadInitialiser 11
int a[2] = {1, 2, 3}; int main(void){  return 0; } => BadInitialiser 18
int a[2] = {1, 2, -3, 4}; int main(void){  return 0; } => BadInitialiser 18
int a[2] = 'x'; int main(void){  return 0; } => BadInitialiser 11
int a[0]; int main(void){  return 0; } => TypeClash 6
int a[0x0]; int main(void){  return 0; } => TypeClash 6
void a; int main(void){  return 0; } => TypeClash 5
void a[3]; int main(void){  return 0; } => TypeClash 5
void a[18446744073709551615]; int main(void){  return 0; } => TypeClash 5
void a[18446744073709551615] = {1, 2}; int main(void){  return 0; } => TypeClash 5
void a[18446744073709551615] = 1; int main(void){  return 0; } => TypeClash 5
void a = 1; int main(void){  return 0; } => TypeClash 5
int b, *c; void *d, e; int main(void){  return 0; } => TypeClash 20
int a[0] = {1}; int main(void){  return 0; } => TypeClash 6
int main(void){ void x; return 0; } => TypeClash 21
int main(void){ for (void x;;) ; return 0; } => TypeClash 26
int f(int a, void b){ return a; } int main(void){  return 0; } => TypeClash 18
";

/// Scopes (C11, 6.2.1) and declarations of one name (C11, 6.7): every function and global is
/// visible in the whole text, and a local from its own declarator on.
const NAMES: &str = r"
int main(void){ x = 1; put(y()); main(); return 0; } int x; int y(void){ return x; } => accepted
int main(void){ int x; { int x; { char x; } } for (int x;;) { int x; break; } for (int x;;) break; return 0; } => accepted
int main(void){ int x = x; int y = 1, z = y; int main; main = 2; return 0; } => accepted
int f(int a){ { int a; } return a; } int a; int main(void){ int f; f = a; return 0; } => accepted
int main(void){ put(1); protect(0, 1); RaiseException(1, 0, 0, (0)); walk(); int x = EXCEPTION_CONTINUE_SEARCH + EXCEPTION_CONTINUE_EXECUTION; return 0; } => accepted
int main(void){ if (1) { int x; } else { int x; } while (0) { int x; } int x; return 0; } => accepted
int main(void){ x; return 0; } => UnknownName 16
int main(void){ x = 1; return 0; } => UnknownName 16
int main(void){ f(); return 0; } => UnknownName 16
int main(void){ int y; y(); return 0; } => UnknownName 23
int main(void){ put; return 0; } => UnknownName 16
int main(void){ walk; return 0; } => UnknownName 16
int main(void){ main; return 0; } => UnknownName 16
int main(void){ GetExceptionCode; return 0; } => UnknownName 16
int main(void){ RaiseException = 1; return 0; } => UnknownName 16
int main(void){ &main; return 0; } => UnknownName 17
int main(void){ EXCEPTION_EXECUTE_HANDLER(); return 0; } => UnknownName 16
int main(void){ { int x; } x; return 0; } => UnknownName 27
int main(void){ for (int x;;) { break; } x; return 0; } => UnknownName 41
int main(void){ int y = z, z; return 0; } => UnknownName 24
int main(void){ if (1) { int x; } else x; return 0; } => UnknownName 39
int main(void){ put(x); return 0; } => UnknownName 20
int f(int a){ return a; } int main(void){ a; return 0; } => UnknownName 42
int f(int a){ return b; } int main(void){  return 0; } => UnknownName 21
int g; int main(void){ g(); return 0; } => UnknownName 23
int a[2]; int main(void){ a(); return 0; } => UnknownName 26
int main(void){ int x; x = x(1); return 0; } => UnknownName 27
int x; char x; int main(void){  return 0; } => Duplicate 12
int x; int x(void){ return 1; } int main(void){  return 0; } => Duplicate 11
int f(void){ return 1; } int f2(void){ return 1; } int f; int main(void){  return 0; } => Duplicate 55
int x, *x; int main(void){  return 0; } => Duplicate 8
int main(void){  return 0; } int main(void){ return 1; } => Duplicate 33
int put; int main(void){  return 0; } => Duplicate 4
int protect(void){ return 1; } int main(void){  return 0; } => Duplicate 4
void walk(void){ } int main(void){  return 0; } => Duplicate 5
int walk; int main(void){  return 0; } => Duplicate 4
int main(void){ int walk; return 0; } => Duplicate 20
int EXCEPTION_EXECUTE_HANDLER; int main(void){  return 0; } => Duplicate 4
int GetExceptionCode[3]; int main(void){  return 0; } => Duplicate 4
int AbnormalTermination; int main(void){  return 0; } => Duplicate 4
int f(int a, int a){ return a; } int main(void){  return 0; } => Duplicate 17
int f(int a){ int a; return a; } int main(void){  return 0; } => Duplicate 18
int f(int put){ return 1; } int main(void){  return 0; } => Duplicate 10
int main(void){ int x; int x; return 0; } => Duplicate 27
int main(void){ int x, x; return 0; } => Duplicate 23
int main(void){ int RaiseException; return 0; } => Duplicate 20
int main(void){ { int EXCEPTION_CONTINUE_SEARCH; } return 0; } => Duplicate 22
int main(void){ for (int i, i;;) ; return 0; } => Duplicate 28
int main(void){ int x; { int x; int x; } return 0; } => Duplicate 36
int main(void){ __try { int x; int x; } __finally { } return 0; } => Duplicate 35
";

/// Names that are hidden in nested blocks (C11, 6.2.1 p4): the innermost declaration counts up to
/// the end of its block, and from there on the one that it hid.
const HIDDEN: &str = r"
int *x; int main(void){ { int x; { int *x; *x = 1; } x = 1; } *x = 1; return 0; } => accepted
int main(void){ int *x; { int x; { x = 1; { int *x; { *x = 1; } } x = 2; } } { *x = 1; } return 0; } => accepted
int main(void){ int *x; { int x; } { *x = 1; int x; x = 1; } *x = 2; return 0; } => accepted
int f(void){ return 1; } int main(void){ { int f; f = 2; } return f(); } => accepted
int i; int main(void){ for (int *i = 0;;) { *i = 1; int i; i = 2; break; } i = 1; return 0; } => accepted
int f(int *x){ { int x; x = 1; } if (1) { int x; x = 2; } *x = 3; return 0; } int main(void){ return 0; } => accepted
int main(void){ int *x; { int x; *x; } return 0; } => TypeClash 33
int main(void){ int *x; { int x; { { *x; } } } return 0; } => TypeClash 37
int main(void){ int x; { int *x; { *x = 1; } } *x; return 0; } => TypeClash 47
int main(void){ int x; { int *x; { int x; } { *x = 1; } } { *x; } return 0; } => TypeClash 60
int x; int main(void){ for (int *x = 0;;) { *x = 1; break; } *x; return 0; } => TypeClash 61
int f(void){ return 1; } int main(void){ { int f; { f(); } } return f(); } => UnknownName 52
int main(void){ { int x; { int y; { int x; } } { x = 1; y = 1; } } return 0; } => UnknownName 56
";

/// The function `main` (C11, 5.1.2.2.1). Where there is none, the fault is at 0; where it has
/// another type, at its name.
const ENTRY: &str = r"
int main(){ return 0; } => accepted
int main(void){ return 0; } => accepted
int main(long long n){ return n; } => accepted
long int main(signed long long int n){ return n; } => accepted
int a; int main(void){ return 0; } int b; => accepted
 => NoMain 0
int f(void){ return 0; } => NoMain 0
int main; => NoMain 0
int main[2]; => NoMain 0
int main; int main(void){ return 0; } => NoMain 0
int f(void){ int main; return 0; } => NoMain 0
int Main(void){ return 0; } => NoMain 0
void main(void){ } => TypeClash 5
unsigned main(void){ return 0; } => TypeClash 9
long long main(void){ return 0; } => TypeClash 10
int *main(void){ return 0; } => TypeClash 5
int main(int n){ return n; } => TypeClash 4
int main(long long *n){ return 0; } => TypeClash 4
int main(unsigned long long n){ return n; } => TypeClash 4
int main(long long n, long long k){ return n; } => TypeClash 4
int f(void){ return 0; } char main(void){ return 0; } => TypeClash 30
";

#[test]
fn declarations(rt: HostRuntime) -> Result<(), Fail> {
    all_as_wanted(&rt, rt.alloc(), &[INITIALISERS, NAMES, HIDDEN, ENTRY])
}
