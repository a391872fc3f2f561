//! The scope records that are asked at a frame.

ghost use Rattle.std.specs.Prelude.{◌≡◌, ◌+◌, ◌^◌, ◌<◌, length, drop, option_map, IfSome, Option};
ghost use Rattle.seh_walk.specs.Asked as spec;
ghost use Rattle.seh_walk.specs.Seen.{asked_found};

use eh_tables::{FunctionEntry, ScopeRecord, Scopes};

fn holds(row: &ScopeRecord, rva: u64) -> bool
    ensures { result ≡ spec.holds row.now rva }
{
    row.begin as u64 <= rva && rva < row.end as u64
}

fn is_end(target: u64, row: &ScopeRecord) -> bool
    ensures { result ≡ spec.is_end target row.now }
{
    holds(row, target) || (row.jump_target != 0 && row.jump_target as u64 == target)
}

/// The rows from an index on.
pub fn skipped<'a>(scopes: Scopes<'a>, from: u64) -> Scopes<'a>
    requires { length scopes < 2 ^ 60 }
    ensures value { result ≡ drop from scopes.entry }
    ensures fits { from + length result < 2 ^ 64 }
{
    scopes.from_row(from)
}

/// The first row with a landing that holds an address, of rows that begin with an index.
fn first_jump(rva: u64, from: u64, rows: Scopes) -> Option<(u64, ScopeRecord)>
    requires { from + length rows < 2 ^ 64 }
    ensures value { result ≡ spec.first_with_jump_target (spec.holding rva from rows.entry) }
    ensures small { IfSome result (λ x. x.0 + 1 < 2 ^ 64) }
{
    let mut k = from;
    let mut left = rows;
    while let Some(row) = left.next() {
        if holds(&row, rva) && row.jump_target != 0 {
            return Some((k, row));
        }
        k += 1;
    }
    None
}

/// The first row of a `__finally` block that holds an address, of rows that begin with an index. In
/// the last frame a target ends them.
fn first_block(
    rva: u64,
    from: u64,
    rows: Scopes,
    is_last: bool,
    target: u64,
) -> Option<(u64, ScopeRecord)>
    requires { from + length rows < 2 ^ 64 }
    ensures value { result
        ≡ spec.first_finally (spec.until_if is_last target (spec.holding rva from rows.entry)) }
    ensures small { IfSome result (λ x. x.0 + 1 < 2 ^ 64) }
{
    let mut k = from;
    let mut left = rows;
    while let Some(row) = left.next() {
        let is_held = holds(&row, rva);
        if is_held && is_last && is_end(target, &row) {
            return None;
        }
        if is_held && row.jump_target == 0 {
            return Some((k, row));
        }
        k += 1;
    }
    None
}

/// The first row, from an index on, that a search asks at a frame whose entry was found: in the
/// body of an entry with UNW_FLAG_EHANDLER, a row that holds the address and isn't that of a
/// `__finally` block.
pub fn first_searched(
    found: Option<&FunctionEntry>,
    in_body: bool,
    rva: u64,
    from: u64,
) -> Option<(u64, ScopeRecord)>
    ensures value { result ≡ spec.first_with_jump_target
        (spec.searched (asked_found in_body (option_map (λ f. f.now) found.entry)) rva from) }
    ensures small { IfSome result (λ x. x.0 + 1 < 2 ^ 64) }
{
    if !in_body {
        return None;
    }
    match found {
        None => None,
        Some(entry) => {
            if entry.info.flags() % 2 != 1 {
                return None;
            }
            first_jump(rva, from, skipped(entry.info.scopes(), from))
        }
    }
}

/// The first row, from an index on, whose `__finally` block an unwinding runs at a frame whose
/// entry was found: in the body of an entry with UNW_FLAG_UHANDLER, a row that holds the address
/// and is that of a `__finally` block. In the target's frame no row is asked from the first on that
/// holds the target or lands there.
pub fn first_unwound(
    found: Option<&FunctionEntry>,
    in_body: bool,
    rva: u64,
    from: u64,
    is_last: bool,
    target: u64,
) -> Option<(u64, ScopeRecord)>
    ensures value { result ≡ spec.first_finally (spec.unwound
        (asked_found in_body (option_map (λ f. f.now) found.entry)) rva from is_last target) }
    ensures small { IfSome result (λ x. x.0 + 1 < 2 ^ 64) }
{
    if !in_body {
        return None;
    }
    match found {
        None => None,
        Some(entry) => {
            let flags = entry.info.flags();
            if flags < 2 || flags > 3 {
                return None;
            }
            let rows = skipped(entry.info.scopes(), from);
            first_block(rva, from, rows, is_last, target)
        }
    }
}
