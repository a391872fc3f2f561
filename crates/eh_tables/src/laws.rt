//! What is read alike.

ghost use Rattle.eh_tables.specs.EitherEntries.{ReadsVersion1Alike};

/// An entry whose infos have version 1 is read alike where version 2 is read too.
pub fn version_1_alike()
    ensures { ReadsVersion1Alike }
{}
