//! A dump that is written out.

ghost use Rattle.minidump.specs.Worked.{DirectoryIsRead, FirstStreamCounts, ListIsRead, ThreadIsRead, MissingIsNone, NameIsRead, StreamIsRefused, DirectoryIsRefused};

/// Its directory; its threads, of two lists the first; its thread; that it has no modules; a name
/// in it; the list and the directory, where the file ends within them.
pub fn worked_dump()
    ensures directory { DirectoryIsRead }
    ensures first { FirstStreamCounts }
    ensures threads { ListIsRead }
    ensures thread { ThreadIsRead }
    ensures modules { MissingIsNone }
    ensures name { NameIsRead }
    ensures stream_refused { StreamIsRefused }
    ensures directory_refused { DirectoryIsRefused }
{}
