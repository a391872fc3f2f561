//! The ranges of a function table, as a search reads them.

ghost use Rattle.std.specs.Prelude.{◌≡◌, ◌+◌, ◌<◌, length, slice_index_or};
ghost use Rattle.eh_tables.specs.Tables as spec;

use crate::range::RuntimeFunction;
use crate::tables::Tables;
use seh_num::steps::Steps;
use std::marker::Model;
use std::sync::ledger::Ledger;

/// The ranges of a table, each of which is read only by what counts it.
#[derive(Drop)]
pub(crate) struct CountedRanges<'table, 'image, 'bytes> {
    tables: &'table Tables<'image, 'bytes>,
}

impl<'table, 'image, 'bytes> Model for CountedRanges<'table, 'image, 'bytes> {
    ghost use Rattle.eh_tables.specs.Tables.{Tables};

    ghost Value = { Tables };

    ghost view = { λ r. r.tables.now };
}

impl<'table, 'image, 'bytes> CountedRanges<'table, 'image, 'bytes> {
    /// The ranges of this table.
    pub(crate) fn of(tables: &'table Tables<'image, 'bytes>) -> Self
        ensures { result ≡ tables.now }
    {
        CountedRanges { tables }
    }

    /// How many there are.
    pub(crate) fn len(&self) -> u64
        ensures { result ≡ length self.now.ranges }
    {
        self.tables.len()
    }

    /// The range of an index; a step counts it.
    pub(crate) fn range<L: Ledger>(&self, index: u64, steps: &mut Steps<L>) -> RuntimeFunction
        requires { index < length self.now.ranges }
        ensures value { result ≡ slice_index_or self.now.ranges index spec.no_range }
        ensures counted { steps.new ≡ steps.old + 1 }
    {
        steps.tick();
        self.tables.range(index)
    }
}
