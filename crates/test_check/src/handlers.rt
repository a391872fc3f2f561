//! Calls that name a vectored handler.

use crate::verdict::all_as_wanted;
use std::test::Fail;

/// Vectored handlers by function name: a function `int (unsigned, unsigned)`, with or without
/// parentheses, anywhere in the text (Windows headers, `errhandlingapi.h`; the name in place of a
/// pointer is own).
const NAMED: &str = r"
int v(unsigned c, unsigned f){ return 0; } int g(int c, int f){ return 0; } int x; int a[2]; int main(void){ AddVectoredExceptionHandler(1, v); AddVectoredExceptionHandler(0, (v)); x = AddVectoredExceptionHandler(x, ((v))) + RemoveVectoredExceptionHandler(v); put(RemoveVectoredExceptionHandler((v))); return 0; } => accepted
int v(unsigned c, unsigned f){ return 0; } int g(int c, int f){ return 0; } int x; int a[2]; int main(void){ AddVectoredExceptionHandler('a', v); AddVectoredExceptionHandler(5000000000, v); AddVectoredExceptionHandler(RemoveVectoredExceptionHandler(v), v); AddVectoredExceptionHandler((x, 1), v); return 0; } => accepted
int main(void){ AddVectoredExceptionHandler(1, v); return 0; } int v(unsigned c, unsigned f){ RemoveVectoredExceptionHandler(v); return -1; } => accepted
int v(unsigned int c, unsigned int f){ return 0; } int main(void){ __try { RemoveVectoredExceptionHandler(v); } __except (AddVectoredExceptionHandler(1, v)) { RemoveVectoredExceptionHandler(v); } return 0; } => accepted
";

/// A function of another type, an expression that is no name, and a first argument that is no
/// number. The fault is at the argument's first token.
const TYPES: &str = r"
void v(unsigned c, unsigned f){ } int main(void){ AddVectoredExceptionHandler(1, v); return 0; } => TypeClash 81
unsigned v(unsigned c, unsigned f){ return 0; } int main(void){ AddVectoredExceptionHandler(1, v); return 0; } => TypeClash 95
long long v(unsigned c, unsigned f){ return 0; } int main(void){ AddVectoredExceptionHandler(1, v); return 0; } => TypeClash 96
char v(unsigned c, unsigned f){ return 0; } int main(void){ AddVectoredExceptionHandler(1, v); return 0; } => TypeClash 91
int *v(unsigned c, unsigned f){ return 0; } int main(void){ AddVectoredExceptionHandler(1, v); return 0; } => TypeClash 91
int v(void){ return 0; } int main(void){ AddVectoredExceptionHandler(1, v); return 0; } => TypeClash 72
int v(unsigned c){ return 0; } int main(void){ AddVectoredExceptionHandler(1, v); return 0; } => TypeClash 78
int v(unsigned c, unsigned f, unsigned g){ return 0; } int main(void){ AddVectoredExceptionHandler(1, v); return 0; } => TypeClash 102
int v(int c, unsigned f){ return 0; } int main(void){ AddVectoredExceptionHandler(1, v); return 0; } => TypeClash 85
int v(unsigned c, int f){ return 0; } int main(void){ AddVectoredExceptionHandler(1, v); return 0; } => TypeClash 85
int v(unsigned c, unsigned *f){ return 0; } int main(void){ AddVectoredExceptionHandler(1, v); return 0; } => TypeClash 91
int v(unsigned long long c, unsigned f){ return 0; } int main(void){ AddVectoredExceptionHandler(1, v); return 0; } => TypeClash 100
int v(unsigned short c, unsigned f){ return 0; } int main(void){ AddVectoredExceptionHandler(1, v); return 0; } => TypeClash 96
int v(unsigned c, unsigned f){ return 0; } int g(int c, int f){ return 0; } int x; int a[2]; int main(void){ AddVectoredExceptionHandler(1, g); return 0; } => TypeClash 140
int v(unsigned c, unsigned f){ return 0; } int g(int c, int f){ return 0; } int x; int a[2]; int main(void){ AddVectoredExceptionHandler(1, (g)); return 0; } => TypeClash 140
int v(unsigned c, unsigned f){ return 0; } int g(int c, int f){ return 0; } int x; int a[2]; int main(void){ RemoveVectoredExceptionHandler(g); return 0; } => TypeClash 140
int v(unsigned c, unsigned f){ return 0; } int g(int c, int f){ return 0; } int x; int a[2]; int main(void){ RemoveVectoredExceptionHandler(((g))); return 0; } => TypeClash 140
int v(unsigned c, unsigned f){ return 0; } int g(int c, int f){ return 0; } int x; int a[2]; int main(void){ RemoveVectoredExceptionHandler(main); return 0; } => TypeClash 140
int v(unsigned c, unsigned f){ return 0; } int g(int c, int f){ return 0; } int x; int a[2]; int main(void){ AddVectoredExceptionHandler(1, put); return 0; } => TypeClash 140
int v(unsigned c, unsigned f){ return 0; } int g(int c, int f){ return 0; } int x; int a[2]; int main(void){ AddVectoredExceptionHandler(1, (put)); return 0; } => TypeClash 140
int v(unsigned c, unsigned f){ return 0; } int g(int c, int f){ return 0; } int x; int a[2]; int main(void){ RemoveVectoredExceptionHandler(AddVectoredExceptionHandler); return 0; } => TypeClash 140
int v(unsigned c, unsigned f){ return 0; } int g(int c, int f){ return 0; } int x; int a[2]; int main(void){ AddVectoredExceptionHandler(1, RemoveVectoredExceptionHandler); return 0; } => TypeClash 140
int v(unsigned c, unsigned f){ return 0; } int g(int c, int f){ return 0; } int x; int a[2]; int main(void){ RemoveVectoredExceptionHandler(GetExceptionCode); return 0; } => TypeClash 140
int v(unsigned c, unsigned f){ return 0; } int g(int c, int f){ return 0; } int x; int a[2]; int main(void){ RemoveVectoredExceptionHandler(AbnormalTermination); return 0; } => TypeClash 140
int v(unsigned c, unsigned f){ return 0; } int g(int c, int f){ return 0; } int x; int a[2]; int main(void){ AddVectoredExceptionHandler(1, 0); return 0; } => TypeClash 140
int v(unsigned c, unsigned f){ return 0; } int g(int c, int f){ return 0; } int x; int a[2]; int main(void){ AddVectoredExceptionHandler(1, 'a'); return 0; } => TypeClash 140
int v(unsigned c, unsigned f){ return 0; } int g(int c, int f){ return 0; } int x; int a[2]; int main(void){ RemoveVectoredExceptionHandler(1); return 0; } => TypeClash 140
int v(unsigned c, unsigned f){ return 0; } int g(int c, int f){ return 0; } int x; int a[2]; int main(void){ AddVectoredExceptionHandler(1, x + 1); return 0; } => TypeClash 140
int v(unsigned c, unsigned f){ return 0; } int g(int c, int f){ return 0; } int x; int a[2]; int main(void){ AddVectoredExceptionHandler(1, (x + 1)); return 0; } => TypeClash 140
int v(unsigned c, unsigned f){ return 0; } int g(int c, int f){ return 0; } int x; int a[2]; int main(void){ AddVectoredExceptionHandler(1, -x); return 0; } => TypeClash 140
int v(unsigned c, unsigned f){ return 0; } int g(int c, int f){ return 0; } int x; int a[2]; int main(void){ AddVectoredExceptionHandler(1, v(1, 2)); return 0; } => TypeClash 140
int v(unsigned c, unsigned f){ return 0; } int g(int c, int f){ return 0; } int x; int a[2]; int main(void){ RemoveVectoredExceptionHandler(put(1)); return 0; } => TypeClash 140
int v(unsigned c, unsigned f){ return 0; } int g(int c, int f){ return 0; } int x; int a[2]; int main(void){ AddVectoredExceptionHandler(1, &x); return 0; } => TypeClash 140
int v(unsigned c, unsigned f){ return 0; } int g(int c, int f){ return 0; } int x; int a[2]; int main(void){ RemoveVectoredExceptionHandler(a[0]); return 0; } => TypeClash 140
int v(unsigned c, unsigned f){ return 0; } int g(int c, int f){ return 0; } int x; int a[2]; int main(void){ RemoveVectoredExceptionHandler(x = 1); return 0; } => TypeClash 140
int v(unsigned c, unsigned f){ return 0; } int g(int c, int f){ return 0; } int x; int a[2]; int main(void){ AddVectoredExceptionHandler(1, (x, 1)); return 0; } => TypeClash 140
int v(unsigned c, unsigned f){ return 0; } int g(int c, int f){ return 0; } int x; int a[2]; int main(void){ RemoveVectoredExceptionHandler(RemoveVectoredExceptionHandler(v)); return 0; } => TypeClash 140
int v(unsigned c, unsigned f){ return 0; } int g(int c, int f){ return 0; } int x; int a[2]; int main(void){ AddVectoredExceptionHandler(&x, v); return 0; } => TypeClash 137
int v(unsigned c, unsigned f){ return 0; } int g(int c, int f){ return 0; } int x; int a[2]; int main(void){ AddVectoredExceptionHandler(a, v); return 0; } => TypeClash 137
int v(unsigned c, unsigned f){ return 0; } int g(int c, int f){ return 0; } int x; int a[2]; int main(void){ AddVectoredExceptionHandler(put(1), v); return 0; } => TypeClash 137
int v(unsigned c, unsigned f){ return 0; } int g(int c, int f){ return 0; } int x; int a[2]; int main(void){ AddVectoredExceptionHandler(&x, g); return 0; } => TypeClash 137
int v(unsigned c, unsigned f){ return 0; } int g(int c, int f){ return 0; } int x; int a[2]; int main(void){ AddVectoredExceptionHandler(&x, q); return 0; } => TypeClash 137
";

/// Names that aren't those of functions, and names of functions that aren't called. The fault is at
/// the name.
const UNKNOWN: &str = r"
int v(unsigned c, unsigned f){ return 0; } int g(int c, int f){ return 0; } int x; int a[2]; int main(void){ AddVectoredExceptionHandler(1, q); return 0; } => UnknownName 140
int v(unsigned c, unsigned f){ return 0; } int g(int c, int f){ return 0; } int x; int a[2]; int main(void){ AddVectoredExceptionHandler(1, (q)); return 0; } => UnknownName 141
int v(unsigned c, unsigned f){ return 0; } int g(int c, int f){ return 0; } int x; int a[2]; int main(void){ RemoveVectoredExceptionHandler(q); return 0; } => UnknownName 140
int v(unsigned c, unsigned f){ return 0; } int g(int c, int f){ return 0; } int x; int a[2]; int main(void){ RemoveVectoredExceptionHandler(((q))); return 0; } => UnknownName 142
int v(unsigned c, unsigned f){ return 0; } int g(int c, int f){ return 0; } int x; int a[2]; int main(void){ AddVectoredExceptionHandler(1, x); return 0; } => UnknownName 140
int v(unsigned c, unsigned f){ return 0; } int g(int c, int f){ return 0; } int x; int a[2]; int main(void){ AddVectoredExceptionHandler(1, (x)); return 0; } => UnknownName 141
int v(unsigned c, unsigned f){ return 0; } int g(int c, int f){ return 0; } int x; int a[2]; int main(void){ RemoveVectoredExceptionHandler(a); return 0; } => UnknownName 140
int v(unsigned c, unsigned f){ return 0; } int g(int c, int f){ return 0; } int x; int a[2]; int main(void){ int y; AddVectoredExceptionHandler(1, y); return 0; } => UnknownName 147
int v(unsigned c, unsigned f){ return 0; } int g(int c, int f){ return 0; } int x; int a[2]; int main(void){ int v; AddVectoredExceptionHandler(1, v); return 0; } => UnknownName 147
int v(unsigned c, unsigned f){ return 0; } int g(int c, int f){ return 0; } int x; int a[2]; int main(void){ int v[2]; RemoveVectoredExceptionHandler(v); return 0; } => UnknownName 150
int v(unsigned c, unsigned f){ return 0; } int g(int c, int f){ return 0; } int x; int a[2]; int main(void){ RemoveVectoredExceptionHandler(EXCEPTION_EXECUTE_HANDLER); return 0; } => UnknownName 140
int v(unsigned c, unsigned f){ RemoveVectoredExceptionHandler(c); return 0; } int main(void){ return 0; } => UnknownName 62
int v(unsigned c, unsigned f){ return 0; } int g(int c, int f){ return 0; } int x; int a[2]; int main(void){ AddVectoredExceptionHandler(1, v + 1); return 0; } => UnknownName 140
int v(unsigned c, unsigned f){ return 0; } int g(int c, int f){ return 0; } int x; int a[2]; int main(void){ AddVectoredExceptionHandler(1, x ? v : v); return 0; } => UnknownName 144
int v(unsigned c, unsigned f){ return 0; } int g(int c, int f){ return 0; } int x; int a[2]; int main(void){ AddVectoredExceptionHandler(1, (x, v)); return 0; } => UnknownName 144
int v(unsigned c, unsigned f){ return 0; } int g(int c, int f){ return 0; } int x; int a[2]; int main(void){ AddVectoredExceptionHandler(1, &v); return 0; } => UnknownName 141
int v(unsigned c, unsigned f){ return 0; } int g(int c, int f){ return 0; } int x; int a[2]; int main(void){ RemoveVectoredExceptionHandler(*v); return 0; } => UnknownName 141
int v(unsigned c, unsigned f){ return 0; } int g(int c, int f){ return 0; } int x; int a[2]; int main(void){ RemoveVectoredExceptionHandler((int)v); return 0; } => UnknownName 145
int v(unsigned c, unsigned f){ return 0; } int g(int c, int f){ return 0; } int x; int a[2]; int main(void){ AddVectoredExceptionHandler(1, 1 + q); return 0; } => UnknownName 144
int v(unsigned c, unsigned f){ return 0; } int g(int c, int f){ return 0; } int x; int a[2]; int main(void){ RemoveVectoredExceptionHandler(q()); return 0; } => UnknownName 140
int v(unsigned c, unsigned f){ return 0; } int g(int c, int f){ return 0; } int x; int a[2]; int main(void){ AddVectoredExceptionHandler(q, g); return 0; } => UnknownName 137
int v(unsigned c, unsigned f){ return 0; } int g(int c, int f){ return 0; } int x; int a[2]; int main(void){ AddVectoredExceptionHandler(q, v); return 0; } => UnknownName 137
int v(unsigned c, unsigned f){ return 0; } int g(int c, int f){ return 0; } int x; int a[2]; int main(void){ AddVectoredExceptionHandler(v, v); return 0; } => UnknownName 137
int v(unsigned c, unsigned f){ return 0; } int g(int c, int f){ return 0; } int x; int a[2]; int main(void){ x = AddVectoredExceptionHandler; return 0; } => UnknownName 113
int v(unsigned c, unsigned f){ return 0; } int g(int c, int f){ return 0; } int x; int a[2]; int main(void){ &RemoveVectoredExceptionHandler; return 0; } => UnknownName 110
int v(unsigned c, unsigned f){ return 0; } int g(int c, int f){ return 0; } int x; int a[2]; int main(void){ AddVectoredExceptionHandler; return 0; } => UnknownName 109
int v(unsigned c, unsigned f){ return 0; } int g(int c, int f){ return 0; } int x; int a[2]; int main(void){ x = RemoveVectoredExceptionHandler + 1; return 0; } => UnknownName 113
int v(unsigned c, unsigned f){ return 0; } int g(int c, int f){ return 0; } int x; int a[2]; int main(void){ g(v, 1); return 0; } => UnknownName 111
int v(unsigned c, unsigned f){ return 0; } int g(int c, int f){ return 0; } int x; int a[2]; int main(void){ put(v); return 0; } => UnknownName 113
int v(unsigned c, unsigned f){ return 0; } int g(int c, int f){ return 0; } int x; int a[2]; int main(void){ RaiseException(1, 0, 0, v); return 0; } => UnknownName 133
";

/// Too few arguments and too many. The fault is at the name of the function that is called.
const COUNTS: &str = r"
int v(unsigned c, unsigned f){ return 0; } int g(int c, int f){ return 0; } int x; int a[2]; int main(void){ AddVectoredExceptionHandler(); return 0; } => ArgCount 109
int v(unsigned c, unsigned f){ return 0; } int g(int c, int f){ return 0; } int x; int a[2]; int main(void){ AddVectoredExceptionHandler(1); return 0; } => ArgCount 109
int v(unsigned c, unsigned f){ return 0; } int g(int c, int f){ return 0; } int x; int a[2]; int main(void){ AddVectoredExceptionHandler(v); return 0; } => ArgCount 109
int v(unsigned c, unsigned f){ return 0; } int g(int c, int f){ return 0; } int x; int a[2]; int main(void){ AddVectoredExceptionHandler(1, v, v); return 0; } => ArgCount 109
int v(unsigned c, unsigned f){ return 0; } int g(int c, int f){ return 0; } int x; int a[2]; int main(void){ AddVectoredExceptionHandler(1, v, 2); return 0; } => ArgCount 109
int v(unsigned c, unsigned f){ return 0; } int g(int c, int f){ return 0; } int x; int a[2]; int main(void){ RemoveVectoredExceptionHandler(); return 0; } => ArgCount 109
int v(unsigned c, unsigned f){ return 0; } int g(int c, int f){ return 0; } int x; int a[2]; int main(void){ RemoveVectoredExceptionHandler(v, v); return 0; } => ArgCount 109
int v(unsigned c, unsigned f){ return 0; } int g(int c, int f){ return 0; } int x; int a[2]; int main(void){ RemoveVectoredExceptionHandler(1, v); return 0; } => ArgCount 109
int v(unsigned c, unsigned f){ return 0; } int g(int c, int f){ return 0; } int x; int a[2]; int main(void){ RemoveVectoredExceptionHandler(q, g); return 0; } => ArgCount 109
int v(unsigned c, unsigned f){ return 0; } int g(int c, int f){ return 0; } int x; int a[2]; int main(void){ AddVectoredExceptionHandler(g); return 0; } => ArgCount 109
";

/// An argument that is no name and holds a fault has that fault alone.
const FAULTS_OF_THEIR_OWN: &str = r"
int v(unsigned c, unsigned f){ return 0; } int g(int c, int f){ return 0; } int x; int a[2]; int main(void){ AddVectoredExceptionHandler(1, v()); return 0; } => ArgCount 140
int v(unsigned c, unsigned f){ return 0; } int g(int c, int f){ return 0; } int x; int a[2]; int main(void){ AddVectoredExceptionHandler(1, 1 = 2); return 0; } => NotLvalue 140
int v(unsigned c, unsigned f){ return 0; } int g(int c, int f){ return 0; } int x; int a[2]; int main(void){ RemoveVectoredExceptionHandler(1 + put(1)); return 0; } => TypeClash 142
int v(unsigned c, unsigned f){ return 0; } int g(int c, int f){ return 0; } int x; int a[2]; int main(void){ RemoveVectoredExceptionHandler(GetExceptionCode()); return 0; } => CodeOutsideFilter 140
int v(unsigned c, unsigned f){ return 0; } int g(int c, int f){ return 0; } int x; int a[2]; int main(void){ AddVectoredExceptionHandler(1, AbnormalTermination()); return 0; } => AbnormalOutsideFinally 140
int v(unsigned c, unsigned f){ return 0; } int g(int c, int f){ return 0; } int x; int a[2]; int main(void){ AddVectoredExceptionHandler(1, 1 = v); return 0; } => NotLvalue 140
";

/// Both names are those of known functions wherever they are declared.
const DECLARED: &str = r"
int AddVectoredExceptionHandler(unsigned a, int b){ return 0; } int main(void){ return 0; } => Duplicate 4
int RemoveVectoredExceptionHandler; int main(void){ return 0; } => Duplicate 4
int main(void){ int AddVectoredExceptionHandler; return 0; } => Duplicate 20
int main(void){ int x, *RemoveVectoredExceptionHandler[2]; return 0; } => Duplicate 24
int main(void){ for (int RemoveVectoredExceptionHandler;;) ; return 0; } => Duplicate 25
int f(int AddVectoredExceptionHandler){ return 0; } int main(void){ return 0; } => Duplicate 10
int AddVectoredExceptionHandler[3]; int main(void){ return 0; } => Duplicate 4
int AddVectoredExceptionHandlers; int main(void){ int RemoveVectoredExceptionHandle; int addVectoredExceptionHandler; return 0; } => accepted
";

#[test]
fn vectored_handlers(rt: HostRuntime) -> Result<(), Fail> {
    all_as_wanted(&rt, rt.alloc(), &[NAMED, TYPES, UNKNOWN])
}

#[test]
fn calls_of_vectored_functions(rt: HostRuntime) -> Result<(), Fail> {
    all_as_wanted(&rt, rt.alloc(), &[COUNTS, FAULTS_OF_THEIR_OWN, DECLARED])
}
