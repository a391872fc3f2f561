//! Expressions by the C standard's rules (C11, 6.5), with the places of operators.

use crate::rows::{Reader, all_as_wanted};
use c_lex::token::Token;
use c_parse_expr::expressions::expression;
use c_parse_expr::refusal::ParseErr;
use c_syntax::expression::Expr;
use c_syntax::level::COMMA;
use c_syntax::limit::MOST_EXPRESSIONS;
use std::alloc::{AllocError, Global};

/// The place of an expression's own operator, or of its first token.
fn place(expr: &Expr) -> u64 {
    match expr {
        Expr::Literal { at, .. }
        | Expr::Information { at, .. }
        | Expr::Parentheses { at, .. }
        | Expr::Index { at, .. }
        | Expr::Postfix { at, .. }
        | Expr::Prefix { at, .. }
        | Expr::Unary { at, .. }
        | Expr::Cast { at, .. }
        | Expr::Binary { at, .. }
        | Expr::Conditional { at, .. }
        | Expr::Assign { at, .. }
        | Expr::Comma { at, .. } => *at,
        Expr::Variable(name) | Expr::Call { name, .. } => name.start,
    }
}

/// What is seen of an expression.
#[derive(Clone, Copy)]
struct Overview {
    /// Where it starts.
    start: u64,
    /// The place of its operator.
    at: u64,
    /// How many expressions are around a part.
    over: u64,
    /// How many tokens follow.
    left: usize,
}

/// What is seen of the expression at the front, or its refusal.
fn seen(alloc: Global, text: &[u8], room: u64, tokens: &[Token]) -> Result<Overview, ParseErr> {
    match expression(alloc, text, room.min(MOST_EXPRESSIONS), COMMA, tokens) {
        Ok(found) => {
            let start = found.expr.start();
            let at = place(&found.expr);
            let over = found.over;
            let left = found.rest.len();
            drop(found);
            Ok(Overview {
                start,
                at,
                over,
                left,
            })
        }
        Err(refusal) => Err(refusal),
    }
}

/// The place of an expression's operator, how many expressions are around a part, and how many
/// tokens follow; or its refusal.
pub fn expression_of(
    alloc: Global,
    text: &[u8],
    room: u64,
    tokens: &[Token],
) -> Result<String, AllocError> {
    match seen(alloc, text, room, tokens) {
        Ok(seen) => { format!(in alloc; "{} {} {}", seen.at, seen.over, seen.left) }
        Err(refusal) => { format!(in alloc; "{refusal:?}") }
    }
}

/// Where an expression starts; or its refusal.
pub fn start_of(alloc: Global, text: &[u8], tokens: &[Token]) -> Result<String, AllocError> {
    match seen(alloc, text, MOST_EXPRESSIONS, tokens) {
        Ok(seen) => { format!(in alloc; "{}", seen.start) }
        Err(refusal) => { format!(in alloc; "{refusal:?}") }
    }
}

/// Each text is an expression.
const EXPRESSIONS: &str = r"
x => 0 0 0
'a' => 0 0 0
a - b - c => 6 2 0
a - b * c => 2 2 0
a * b - c => 6 2 0
a << b + c => 2 2 0
a == b < c => 2 2 0
a & b == c => 2 2 0
a || b && c => 2 2 0
a | b ^ c & d => 2 3 0
a = b = c => 2 2 0
a += b , c => 7 2 0
a ? b : c ? d : e => 2 2 0
a ? b , c : d => 2 2 0
a || b ? c : d => 7 2 0
(char)x + y => 8 2 0
(unsigned long **)x[1] => 0 2 0
(x) + y => 4 2 0
-x++ => 0 2 0
++*x => 0 2 0
!~-+*&x => 0 6 0
a[b][c]++ => 7 3 0
f() => 0 0 0
f(a, b = c, (d, e)) => 0 3 0
*p = q[1] , r => 10 3 0
GetExceptionInformation()->ExceptionRecord->ExceptionInformation[1] + 2 => 68 1 0
a ; b => 0 0 2
a ) + b => 0 0 3
a b => 0 0 1
";

/// Each text is refused at the first token with which no expression continues.
const REFUSED: &str = r"
 => Unexpected { at: 0 }
a + => Unexpected { at: 3 }
+ ; => Unexpected { at: 2 }
int => Unexpected { at: 0 }
(a => Unexpected { at: 2 }
(int) => Unexpected { at: 5 }
(int x => Unexpected { at: 5 }
a[1; => Unexpected { at: 3 }
a ? b => Unexpected { at: 5 }
a ? b ; => Unexpected { at: 6 }
a ? b : ; => Unexpected { at: 8 }
a + b = c => Unexpected { at: 6 }
(int)x = c => Unexpected { at: 7 }
a ? b : c = d => Unexpected { at: 10 }
++ (int)x => Unexpected { at: 4 }
f(a; => Unexpected { at: 3 }
f(a,) => Unexpected { at: 4 }
f(, => Unexpected { at: 2 }
f()() => Unexpected { at: 3 }
1 ( => Unexpected { at: 2 }
a++ ( => Unexpected { at: 4 }
GetExceptionInformation(1 => Unexpected { at: 24 }
GetExceptionInformation()->Context => Unexpected { at: 27 }
GetExceptionInformation()->ExceptionRecord->ExceptionAddress => Unexpected { at: 44 }
GetExceptionInformation()->ExceptionRecord->ExceptionInformation[x] => Unexpected { at: 65 }
GetExceptionInformation()->ExceptionRecord->ExceptionInformation[1 => Unexpected { at: 66 }
";

/// With room for one expression around each part.
const ROOM_FOR_ONE: &str = r"
a + b => 2 1 0
a + b + c => TooDeep { at: 6 }
a + b * c => TooDeep { at: 6 }
a = b = c => TooDeep { at: 6 }
((a)) => TooDeep { at: 1 }
(int)-a => TooDeep { at: 5 }
a[b]++ => TooDeep { at: 4 }
a[b + c] => TooDeep { at: 4 }
f(a, b) => 0 1 0
a ? b : c + d => TooDeep { at: 10 }
";

/// With room for none.
const ROOM_FOR_NONE: &str = r"
f(a, b) => TooDeep { at: 2 }
f(+a) => TooDeep { at: 2 }
f() => 0 0 0
-a => TooDeep { at: 0 }
(a => TooDeep { at: 0 }
a , b => TooDeep { at: 2 }
a ? b : c => TooDeep { at: 2 }
";

/// `x++ + y` begins where `x` does, and so does `x++`.
const STARTS: &str = r"
 x++ + y => 1
 x++ => 1
";

#[test]
fn operators_bind_by_their_levels(rt: HostRuntime) {
    let room = MOST_EXPRESSIONS;
    all_as_wanted(
        &rt,
        rt.alloc(),
        Reader::Expression { room },
        &[EXPRESSIONS, REFUSED],
    );
    all_as_wanted(&rt, rt.alloc(), Reader::Start, &[STARTS]);
}

#[test]
fn expressions_nest_within_the_room(rt: HostRuntime) {
    let one = Reader::Expression { room: 1 };
    all_as_wanted(&rt, rt.alloc(), one, &[ROOM_FOR_ONE]);
    let none = Reader::Expression { room: 0 };
    all_as_wanted(&rt, rt.alloc(), none, &[ROOM_FOR_NONE]);
}
