//! Programs by the C standard's rules (C11, 6.9), with the places of refusals: a fault is at the
//! first token with which no program within the limits continues.

ghost use Rattle.c_lex.specs.Text.{IsTokens};

use crate::rows::{Reader, all_as_wanted};
use c_lex::token::Token;
use c_parse::program::parse;
use c_syntax::declaration::ExternalDeclaration;
use std::alloc::{AllocError, Global};

/// How many external declarations there are, and how many globals, parameters and items of its body
/// the last of them has.
fn counts(external_declarations: &[ExternalDeclaration]) -> (usize, usize, usize, usize) {
    let count = external_declarations.len();
    match external_declarations.last() {
        None => (count, 0, 0, 0),
        Some(ExternalDeclaration::Globals { globals, .. }) => (count, globals.len(), 0, 0),
        Some(
            ExternalDeclaration::Function {
                parameters,
                body,
                ..
            },
        ) => (count, 0, parameters.len(), body.len()),
    }
}

/// The counts of a program; or its refusal.
pub fn program_of(alloc: Global, text: &[u8], tokens: &[Token]) -> Result<String, AllocError>
    requires { IsTokens text.now tokens.now }
{
    match parse(alloc, text, tokens) {
        Err(refusal) => { format!(in alloc; "{refusal:?}") }
        Ok(program) => {
            let (count, globals, parameters, items) = counts(&program.external_declarations);
            drop(program);
            format!(in alloc; "{count} {globals} {parameters} {items}")
        }
    }
}

/// Each text is a program.
const PROGRAMS: &str = r"
 => 0 0 0 0
int a; => 1 1 0 0
int a, *b, c[3], d = 1, e[2] = {1, -2}, f = -'x', *g[4] = {0}; => 1 7 0 0
int a; void *f(void) {} => 2 0 0 0
int f() { ; return 1; } => 1 0 0 2
long long *f(int a, char *b, long c, void *d, short e, unsigned f, int g, signed h) {} => 1 0 8 0
char a[1048576]; => 1 1 0 0
long long a[131072]; void b; char c[0]; => 3 1 0 0
char a; long long b[131071]; => 2 1 0 0
char a[1048575]; int *b[0]; => 2 1 0 0
char a[1048576]; int f() {} => 2 0 0 0
void a[18446744073709551615]; => 1 1 0 0
int main(void){ return $64$($1$64$)$; } => 1 0 0 1
";

/// No program continues with the token at the place.
const UNEXPECTED: &str = r"
+ => Unexpected { at: 0 }
int => Unexpected { at: 3 }
int ; => Unexpected { at: 4 }
int a => Unexpected { at: 5 }
int a b => Unexpected { at: 6 }
int a;+ => Unexpected { at: 6 }
typedef int a; => Unexpected { at: 0 }
int a = ; => Unexpected { at: 8 }
int a = 1 + 2; => Unexpected { at: 10 }
int a = b; => Unexpected { at: 8 }
int a = - x; => Unexpected { at: 10 }
int a = {}; => Unexpected { at: 9 }
int a = {1,}; => Unexpected { at: 11 }
int a = {1; => Unexpected { at: 10 }
int a[]; => Unexpected { at: 6 }
int a[1; => Unexpected { at: 7 }
int a[-1]; => Unexpected { at: 6 }
int a[1][2]; => Unexpected { at: 8 }
int a, f(); => Unexpected { at: 8 }
int a, ; => Unexpected { at: 7 }
int f(; => Unexpected { at: 6 }
int f(void; => Unexpected { at: 10 }
int f(int) {} => Unexpected { at: 9 }
int f(int a int b) {} => Unexpected { at: 12 }
int f(int a,) {} => Unexpected { at: 12 }
int f(a) {} => Unexpected { at: 6 }
int f(); => Unexpected { at: 7 }
int f(int a, void) {} => Unexpected { at: 17 }
int f(void a => Unexpected { at: 12 }
long int int a; => Unexpected { at: 9 }
signed unsigned a; => Unexpected { at: 7 }
int f() {  => Unexpected { at: 10 }
int f() {} } => Unexpected { at: 11 }
int main(void){ if 1; } => Unexpected { at: 19 }
int main(void){ return 7; => Unexpected { at: 25 }
char a[1048576]; int b + => Unexpected { at: 23 }
";

/// No program within a limit continues with the token at the place.
const BEYOND_LIMITS: &str = r"
int main(void){ return $65$($1$65$)$; } => TooDeep { at: 87 }
int f(int a,int b,int c,int d,int e,int f,int g,int h,int i){} => TooMany { at: 53, what: Parameters }
char a[1048577]; => TooMany { at: 7, what: Globals }
char a[1048576], b; => TooMany { at: 18, what: Globals }
char a[1048576]; int b = 1; => TooMany { at: 23, what: Globals }
char a[1048576]; int b, c; => TooMany { at: 22, what: Globals }
char a[1048576]; char b[1]; => TooMany { at: 24, what: Globals }
long long a[18446744073709551615]; => TooMany { at: 12, what: Globals }
";

/// 4,096 functions, 65,536 locals of a function, and 16,384 `__finally` blocks and filters that may
/// refuse are within the limits, and one more is beyond. Filters that always accept aren't counted.
const COUNTED: &str = r"
$4096$int f(){}$ => 4096 0 0 0
$4097$int f(){}$ => TooMany { at: 36869, what: Functions }
int f(){$16384$__try{}__finally{}$} => 1 0 0 16384
int f(){$16385$__try{}__finally{}$} => TooMany { at: 294927, what: Funclets }
int f(){$16384$__try{}__except(0){}$} => 1 0 0 16384
int f(){$16385$__try{}__except(0){}$} => TooMany { at: 327704, what: Funclets }
int f(){$16385$__try{}__except(1){}$} => 1 0 0 16385
int f(){$65536$int a;$} => 1 0 0 65536
int f(){$65537$int a;$} => TooMany { at: 393224, what: Locals }
int f(){int a$65535$,a$;} => 1 0 0 1
int f(){int a$65536$,a$;} => TooMany { at: 131083, what: Locals }
";

/// Local arrays of a function have 65,536 bytes at most, each at a multiple of its element's size;
/// other locals and other functions don't count.
const LOCAL_ARRAYS: &str = r"
int f(){int a[3], *b[2], c = 1, d[4] = 2;} => 1 0 0 1
int f(){for (int a[2], b; b < 2; b++) ;} => 1 0 0 1
int f(){int a[0x10]; a[1] = a[2];} => 1 0 0 2
int f(){char a[65536];} => 1 0 0 1
int f(){char a[65537];} => TooMany { at: 15, what: ArrayBytes }
int f(){unsigned a[16384];} => 1 0 0 1
int f(){unsigned a[16385];} => TooMany { at: 19, what: ArrayBytes }
int f(){char *a[8192];} => 1 0 0 1
int f(){char *a[8193];} => TooMany { at: 16, what: ArrayBytes }
int f(){char a[65535], b[1];} => 1 0 0 1
int f(){char a[65535], b[2];} => TooMany { at: 25, what: ArrayBytes }
int f(){char a[1]; int b[16383];} => 1 0 0 2
int f(){char a[1]; int b[16384];} => TooMany { at: 25, what: ArrayBytes }
int f(){short a[1]; long long b[8191]; int *c[0];} => 1 0 0 3
int f(){char a[65533]; int b[1];} => TooMany { at: 29, what: ArrayBytes }
int f(){void a[18446744073709551615], b, *c[8192];} => 1 0 0 1
int f(){void *a[18446744073709551615];} => TooMany { at: 16, what: ArrayBytes }
int f(){char a[65536]; int b, *c; void *d[0];} => 1 0 0 3
int f(){char a[65536];} int g(){char a[65536];} => 2 0 0 1
int f(){{char a[40000];} {char b[40000];}} => TooMany { at: 33, what: ArrayBytes }
int f(){if (1) {char a[65536];} else {char b[1];}} => TooMany { at: 45, what: ArrayBytes }
int f(){char a[65536]; for (char b[1]; ; ) ;} => TooMany { at: 35, what: ArrayBytes }
int f(){__try{char a[65536];}__except(1){char b[1];}} => TooMany { at: 48, what: ArrayBytes }
int f(){__try{char a[65536];}__finally{char b[1];}} => TooMany { at: 46, what: ArrayBytes }
";

/// No program continues with the token at the place of a local array.
const UNEXPECTED_IN_ARRAYS: &str = r"
int f(){int a[];} => Unexpected { at: 14 }
int f(){int a[1;} => Unexpected { at: 15 }
int f(){int a[-1];} => Unexpected { at: 14 }
int f(){int a[b];} => Unexpected { at: 14 }
int f(){int a['x'];} => Unexpected { at: 14 }
int f(){int a[1][2];} => Unexpected { at: 16 }
int f(){int a[1] + 2;} => Unexpected { at: 17 }
int f(){int a[1] = {1};} => Unexpected { at: 19 }
int f(){int [1];} => Unexpected { at: 12 }
int f(){for (int a[; ; ) ;} => Unexpected { at: 19 }
";

/// 64 statements and 64 expressions may be around a statement or an expression, and one more
/// makes it too deep.
const NESTED: &str = r"
int f(){$64${$;$65$}$ => 1 0 0 1
int f(){$65${$;$66$}$ => TooDeep { at: 73 }
int f(){$65${$$66$}$ => 1 0 0 1
int f(){$66${$$67$}$ => TooDeep { at: 73 }
int f(){$63${$1;$64$}$ => 1 0 0 1
int f(){$64${$1;$65$}$ => TooDeep { at: 72 }
int f(){$64$if(1)$;} => 1 0 0 1
int f(){$65$if(1)$;} => TooDeep { at: 328 }
int f(){$64$if(1);else $;} => 1 0 0 1
int f(){$65$if(1);else $;} => TooDeep { at: 712 }
int f(){$64$1,$1;} => 1 0 0 1
int f(){$65$1,$1;} => TooDeep { at: 137 }
";

/// Lists may be long.
const LONG: &str = r"
$2000$int a;$ => 2000 1 0 0
$2000$int f(){}$ => 2000 0 0 0
int a$2000$,a$; => 1 2001 0 0
int a={0$2000$,-1$}; => 1 1 0 0
int f(){$2000$;$} => 1 0 0 2000
int f(){$2000${}$} => 1 0 0 2000
int f(){$2000$a=1;$} => 1 0 0 2000
int f(){f(1$2000$,1$);} => 1 0 0 1
";

#[test]
fn texts_are_programs_or_refused(rt: HostRuntime) {
    all_as_wanted(
        &rt,
        rt.alloc(),
        Reader::Program,
        &[
            PROGRAMS,
            UNEXPECTED,
            BEYOND_LIMITS,
            COUNTED,
            LOCAL_ARRAYS,
            UNEXPECTED_IN_ARRAYS,
            NESTED,
            LONG,
        ],
    );
}
