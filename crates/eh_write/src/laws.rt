//! What is written is read again.

ghost use Rattle.eh_write.specs.ReadAgain.{InfoIsReadAgain, ScopeRecordsAreReadAgain, RangesAreReadAgain, TableIsReadAgain};

/// What `write_unwind`, `write_scopes` and `write_pdata` append is read again as the same values,
/// wherever it is stored in an image, and a function table whose unwind infos were written so, and
/// those that they are chained to, as the same whole table.
pub fn read_again()
    ensures infos { InfoIsReadAgain }
    ensures scopes { ScopeRecordsAreReadAgain }
    ensures ranges { RangesAreReadAgain }
    ensures table { TableIsReadAgain }
{}
