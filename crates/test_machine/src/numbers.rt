ghost use Rattle.std.specs.Prelude.{◌≡◌, ◌<◌};

use crate::rows::{shows, width_of};
use seh_num::division::{div_signed, div_unsigned};
use seh_num::steps::Steps;
use seh_num::width::Width;
use std::marker::Brand;
use std::sync::ledger::{Blank, Ledger};
use test_tables::rows::{column, word, word_if};

/// Quotients, each `WIDTH DIVIDEND DIVISOR | ANSWER`. Signs as C has them (C reference,
/// "Multiplicative operators": towards zero, and the remainder makes up the dividend); limits as
/// IDIV has them. The last four are of 2^63 times 3, less 1, and as it is; below zero one multiple
/// of 3 later.
const SIGNED: &str = r"
32 7 2 | Ok((3, 1))
32 -7 2 | Ok((-3, -1))
32 7 -2 | Ok((-3, 1))
32 -7 -2 | Ok((3, -1))
64 0 -5 | Ok((0, 0))
64 -5 -9223372036854775808 | Ok((0, -5))
8 -128 -1 | Err(Overflow)
8 -127 -1 | Ok((127, 0))
8 -128 1 | Ok((-128, 0))
16 -128 -1 | Ok((128, 0))
16 -32768 -1 | Err(Overflow)
32 -2147483648 -1 | Err(Overflow)
64 -2147483648 -1 | Ok((2147483648, 0))
64 -9223372036854775808 -1 | Err(Overflow)
8 0 0 | Err(Zero)
64 -1 0 | Err(Zero)
64 -170141183460469231731687303715884105728 0 | Err(Zero)
64 -170141183460469231731687303715884105728 -1 | Err(Overflow)
64 27670116110564327423 3 | Ok((9223372036854775807, 2))
64 27670116110564327424 3 | Err(Overflow)
64 -27670116110564327426 3 | Ok((-9223372036854775808, -2))
64 -27670116110564327427 3 | Err(Overflow)
";

/// The same with limits as DIV has them. The last two are of 2^64 times 10, less 1, and as it is.
const UNSIGNED: &str = r"
32 7 2 | Ok((3, 1))
8 255 1 | Ok((255, 0))
8 256 1 | Err(Overflow)
8 511 2 | Ok((255, 1))
16 65536 1 | Err(Overflow)
32 4294967296 1 | Err(Overflow)
32 4294967296 2 | Ok((2147483648, 0))
8 0 0 | Err(Zero)
64 340282366920938463463374607431768211455 0 | Err(Zero)
64 340282366920938463463374607431768211455 18446744073709551615 | Err(Overflow)
64 184467440737095516159 10 | Ok((18446744073709551615, 9))
64 184467440737095516160 10 | Err(Overflow)
";

/// The dividend and the divisor of a row of signed numbers.
fn signed_of(words: &str) -> Option<(i128, i64)> {
    let dividend = word_if(words, 1)?.parse().ok()?;
    let divisor = word_if(words, 2)?.parse().ok()?;
    Some((dividend, divisor))
}

#[test]
fn signed_quotients(rt: HostRuntime) {
    for row in SIGNED.lines().skip(1) {
        let words = column(row, 0);
        match signed_of(words) {
            None => panic!(rt; "no row: {row}"),
            Some((dividend, divisor)) => {
                let width = width_of(&rt, word(words, 0));
                let answer = div_signed(width, dividend, divisor);
                shows(&rt, rt.alloc(), &answer, column(row, 1), row);
            }
        }
    }
}

/// The dividend and the divisor of a row of unsigned numbers.
fn unsigned_of(words: &str) -> Option<(u128, u64)> {
    let dividend = word_if(words, 1)?.parse().ok()?;
    let divisor = word_if(words, 2)?.parse().ok()?;
    Some((dividend, divisor))
}

#[test]
fn unsigned_quotients(rt: HostRuntime) {
    for row in UNSIGNED.lines().skip(1) {
        let words = column(row, 0);
        match unsigned_of(words) {
            None => panic!(rt; "no row: {row}"),
            Some((dividend, divisor)) => {
                let width = width_of(&rt, word(words, 0));
                let answer = div_unsigned(width, dividend, divisor);
                shows(&rt, rt.alloc(), &answer, column(row, 1), row);
            }
        }
    }
}

// The number of steps takes no bytes, so the contract alone says it.
fn ticked_twice<L: Ledger>(blank: Blank) -> Steps<L>
    requires name { blank.name ≡ L.name }
    requires parts { blank.parts ≡ L.parts }
    requires some { 0 < L.parts }
    ensures { result ≡ 2 }
{
    let mut steps = Steps::new(blank);
    steps.tick();
    steps.tick();
    steps
}

fn opens_and_drops<L: Ledger>(blank: Blank)
    requires name { blank.name ≡ L.name }
    requires parts { blank.parts ≡ L.parts }
    requires some { 0 < L.parts }
{
    let _ = ticked_twice::<L>(blank);
}

#[test]
fn steps() {
    opens_and_drops::<Brand>(Blank::new(1));
}
