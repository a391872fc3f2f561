//! Statements by the C standard's rules (C11, 6.8) and the Microsoft C reference, with the places
//! of refusals: a fault is at the first token with which no program within the limits continues.
//!
//! A row's text is `ROOM LOCALS FUNCLETS: ITEMS`: the room for statements around each, what is left
//! of the counts, and the items of a block after the opening brace.

use crate::rows::{Reader, all_as_wanted};
use c_lex::token::Token;
use c_parse_stmt::remaining::Remaining;
use c_parse_stmt::statements::items;
use c_syntax::limit::{MOST_ARRAY_BYTES, MOST_STATEMENTS};
use std::alloc::{AllocError, Global};

/// The three numbers that a row begins with; 0 for a word that is none.
fn given_of(words: &str) -> Option<(u64, Remaining)> {
    let (room, words) = words.split_once(' ')?;
    let (locals, funclets) = words.split_once(' ')?;
    let left = Remaining {
        locals: locals.parse().unwrap_or(0),
        bytes: MOST_ARRAY_BYTES,
        funclets: funclets.parse().unwrap_or(0),
    };
    Some((room.parse().unwrap_or(0), left))
}

/// How many items there are, and what is left of the counts of locals and funclets; or the refusal.
pub fn items_of(
    alloc: Global,
    given: &str,
    text: &[u8],
    tokens: &[Token],
) -> Result<String, AllocError> {
    let Some((room, left)) = given_of(given) else {
        return String::from_str(alloc, "not three numbers");
    };
    match items(alloc, text, room.min(MOST_STATEMENTS), left, tokens) {
        Err(refusal) => { format!(in alloc; "{refusal:?}") }
        Ok((read, left, rest)) => {
            let count = read.len();
            drop(read);
            if rest.is_empty() {
                format!(in alloc; "{count} {} {}", left.locals, left.funclets)
            } else {
                String::from_str(alloc, "tokens are left")
            }
        }
    }
}

/// Items without expressions.
const BLOCKS: &str = r"
0 0 0: } => 0 0 0
1 0 0: ; break; continue; __leave; return; } => 5 0 0
1 3 0: int a, *b; { unsigned long c; } {} } => 3 0 0
0 9 1: int a, *b; } => 1 7 1
0 9 1: int a[2], *b, c[3]; } => 1 6 1
1 2 2: __try { int a; } __finally { } } => 1 1 1
2 0 2: __try { __try {} __finally {} } __finally {} ; } => 2 0 0
";

/// Refusals without expressions before them.
const REFUSED: &str = r"
1 0 0:  => Unexpected { at: 0 }
1 0 0: ;  => Unexpected { at: 2 }
1 0 0: break } => Unexpected { at: 6 }
0 0 0: ; ;} => TooDeep { at: 0 }
0 9 9: int a; __try => TooDeep { at: 7 }
0 0 0: else } => Unexpected { at: 0 }
0 1 0: int a = 1; } => TooDeep { at: 6 }
1 0 0: { ; } } => TooDeep { at: 2 }
1 0 0: { 1; } } => TooDeep { at: 2 }
1 0 0: ; if => TooDeep { at: 2 }
1 0 0: do ; while => TooDeep { at: 0 }
1 0 0: return x; } => TooDeep { at: 7 }
1 0 0: return } => Unexpected { at: 7 }
0 1 0: int } => Unexpected { at: 4 }
0 1 0: int a + 1; } => Unexpected { at: 6 }
0 1 0: int a, b; } => TooMany { at: 5, what: Locals }
0 1 0: int a[2], b; } => TooMany { at: 8, what: Locals }
0 1 0: char a[65537]; } => TooMany { at: 7, what: ArrayBytes }
0 1 0: int a[1] = 1; } => TooDeep { at: 9 }
0 1 0: int a; signed b; } => TooMany { at: 7, what: Locals }
2 0 0: for (int => TooMany { at: 5, what: Locals }
2 0 1: __try ; => Unexpected { at: 6 }
2 0 1: __try {} ; => Unexpected { at: 9 }
1 0 1: __try {} __except => TooDeep { at: 9 }
2 0 0: __try {} __finally => TooMany { at: 9, what: Funclets }
1 0 0: __try {} __finally => TooMany { at: 0, what: Funclets }
";

/// Statements with expressions.
const STATEMENTS: &str = r"
65 2 0: int a = 1, *b = &a; a = *b + 1; return a; } => 3 0 0
65 0 0: if (a) if (b) ; else ; } => 1 0 0
65 0 0: if (a) ; else if (b) ; else { } } => 1 0 0
65 0 0: while (a) do ; while (b, c); } => 1 0 0
65 2 0: for (int i = 0, j; i < 9; i++) ; for (;;) break; } => 2 0 0
65 0 0: __try { f(); } __except (1) { } } => 1 0 0
65 0 0: __try { } __except ((EXCEPTION_EXECUTE_HANDLER)) { } } => 1 0 0
65 0 1: __try { } __except (f()) { } } => 1 0 0
";

/// Refusals after expressions.
const REFUSED_AFTER_EXPRESSIONS: &str = r"
1 0 0: a } => TooDeep { at: 0 }
2 0 0: a } => Unexpected { at: 2 }
2 0 0: if a => Unexpected { at: 3 }
2 0 0: if (a ; => Unexpected { at: 6 }
2 0 0: if (a) b => TooDeep { at: 7 }
2 0 0: if (a) ; else b => TooDeep { at: 14 }
2 0 0: if (a) ; else ; else => Unexpected { at: 16 }
2 1 0: if (a) int => Unexpected { at: 7 }
2 0 0: do ; until => Unexpected { at: 5 }
2 0 0: do ; while (a) } => Unexpected { at: 15 }
1 1 0: int a = 1, b => TooMany { at: 9, what: Locals }
";

/// Where no filter may have a number, each text is refused at the first token with which no filter
/// continues that accepts whatever was raised.
const REFUSED_IN_FILTERS: &str = r"
2 0 0: __try {} __except (1 + => TooMany { at: 21, what: Funclets }
2 0 0: __try {} __except (f => TooMany { at: 19, what: Funclets }
2 0 0: __try {} __except (2 => TooMany { at: 19, what: Funclets }
2 0 0: __try {} __except () => Unexpected { at: 19 }
2 0 0: __try {} __except (int => Unexpected { at: 19 }
2 0 0: __try {} __except ((int => TooMany { at: 20, what: Funclets }
2 0 0: __try {} __except (1( => Unexpected { at: 20 }
2 0 0: __try {} __except (EXCEPTION_EXECUTE_HANDLER( => TooMany { at: 44, what: Funclets }
2 0 0: __try {} __except $64$($1 + => TooMany { at: 84, what: Funclets }
2 0 0: __try {} __except $65$($1 + => TooDeep { at: 85 }
2 0 0: __try {} __except $65$($int => TooMany { at: 83, what: Funclets }
2 0 0: __try {} __except $66$($1 => TooDeep { at: 83 }
2 0 0: __try {} __except ((1) ; => Unexpected { at: 23 }
2 0 0: __try {} __except (1) ; => Unexpected { at: 22 }
2 0 0: __try {} __except (1) => Unexpected { at: 21 }
";

#[test]
fn items_are_read_or_refused(rt: HostRuntime) {
    all_as_wanted(
        &rt,
        rt.alloc(),
        Reader::Items,
        &[
            BLOCKS,
            REFUSED,
            STATEMENTS,
            REFUSED_AFTER_EXPRESSIONS,
            REFUSED_IN_FILTERS,
        ],
    );
}
