//! The scope tables of the C handler.

ghost use Rattle.std.specs.Prelude.{◌≡◌, ◌≤◌, ◌+◌, ◌/◌, ◌<◌, ◌^◌, length, take, drop};
ghost use Rattle.eh_tables.specs.Scopes as spec;

use crate::layout::SCOPE_RECORD_SIZE;
use crate::refusal::TableErr;
use pe_image::fields::u32_at;
use std::marker::Model;

/// A record of a scope table: a `__try` whose body is the code from `begin` to before `end`. All
/// addresses are relative to the image base.
#[derive(Clone, Copy, Debug, PartialEq, Eq)]
pub struct ScopeRecord {
    /// The first byte of the body.
    pub begin: u32,
    /// The byte after the body.
    pub end: u32,
    /// The `__finally` block, where the jump target is 0; else the filter, or
    /// [`EXCEPTION_EXECUTE_HANDLER`](crate::EXCEPTION_EXECUTE_HANDLER).
    pub handler_address: u32,
    /// The `__except` block, or 0.
    pub jump_target: u32,
}

impl ScopeRecord {
    fn read(bytes: &[u8]) -> ScopeRecord
        requires { SCOPE_RECORD_SIZE ≤ length bytes.now }
        ensures { result ≡ spec.scope_record bytes.now }
    {
        ScopeRecord {
            begin: u32_at(bytes, 0),
            end: u32_at(bytes, 4),
            handler_address: u32_at(bytes, 8),
            jump_target: u32_at(bytes, 12),
        }
    }

    /// Whether its range isn't empty, and all its addresses lie below a size.
    fn is_within(&self, size: u64) -> bool
        ensures { result ≡ spec.is_within size self.now }
    {
        self.begin < self.end
            && (self.begin as u64) < size
            && (self.end as u64) < size
            && (self.handler_address as u64) < size
            && (self.jump_target as u64) < size
    }
}

/// The records of a scope table, in their order. A clause sees the list of those that are left.
#[derive(Drop)]
pub struct Scopes<'a> {
    rows: &'a [u8],
}

impl<'a> Model for Scopes<'a> {
    ghost use Rattle.std.specs.Prelude.{List, length, ◌/◌};
    ghost use Rattle.eh_tables.specs.declared.scope.ScopeRecord.{ScopeRecord};
    ghost use Rattle.eh_tables.specs.Scopes.{scope_records_in};

    ghost Value = { List ScopeRecord };

    ghost view = { λ s. scope_records_in s.rows.now };
}

impl<'a> Scopes<'a> {
    #[tactic(auto, using(crate::proofs::Rows::row_count))]
    pub(crate) fn new(rows: &'a [u8]) -> Scopes<'a>
        ensures value { result ≡ spec.scope_records_in rows.now }
        ensures fits { length result < 2 ^ 59 }
    {
        Scopes { rows }
    }

    /// How many there are.
    #[tactic(auto, using(crate::proofs::Rows::row_count))]
    pub fn len(&self) -> u64
        ensures { result ≡ length self.now }
    {
        (self.rows.len() / SCOPE_RECORD_SIZE) as u64
    }

    /// The first so many of them, or all where there are fewer.
    #[tactic(auto, using(crate::proofs::Rows::first_rows, crate::proofs::Rows::all_rows))]
    pub fn first_rows(self, count: u64) -> Scopes<'a>
        ensures { result ≡ take count self.entry }
    {
        if (self.rows.len() / SCOPE_RECORD_SIZE) as u64 <= count {
            return self;
        }
        Scopes {
            rows: &self.rows[..SCOPE_RECORD_SIZE * count as usize],
        }
    }

    /// Those from a row on.
    #[tactic(auto, using(crate::proofs::Rows::rows_from, crate::proofs::Rows::rows_over))]
    pub fn from_row(self, row: u64) -> Scopes<'a>
        ensures { result ≡ drop row self.entry }
    {
        if (self.rows.len() / SCOPE_RECORD_SIZE) as u64 <= row {
            return Scopes { rows: &[] };
        }
        Scopes {
            rows: &self.rows[SCOPE_RECORD_SIZE * row as usize..],
        }
    }
}

impl<'a> Iterator for Scopes<'a> {
    type Item = ScopeRecord;

    ghost use Rattle.std.specs.Iterator.{YieldsFirst, item_count};

    ghost next_gives = { YieldsFirst (λ s. s) };

    ghost remaining = { item_count (λ s. s) };

    fn next(&mut self) -> Option<ScopeRecord> {
        if self.rows.len() < SCOPE_RECORD_SIZE {
            return None;
        }
        let row = ScopeRecord::read(self.rows);
        self.rows = &self.rows[SCOPE_RECORD_SIZE..];
        Some(row)
    }
}

/// Checks records of a scope table, of which the first is that of a row, in an image of that size.
pub fn check_scope_records(
    index: u64,
    size: u64,
    first: u64,
    scopes: Scopes,
) -> Result<(), TableErr>
    requires { first + length scopes < 2 ^ 64 }
    ensures { result ≡ spec.checked index size first scopes.entry }
{
    let mut row = first;
    for scope in scopes {
        if !scope.is_within(size) {
            return Err(TableErr::ScopeRange { index, row });
        }
        row += 1;
    }
    Ok(())
}
