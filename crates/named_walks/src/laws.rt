//! Where a program names `walk`.

ghost use Rattle.named_walks.specs.Laws.{WalksAreNamed};

/// A body of a program's linear code calls `walk` exactly where a function of the program names it:
/// in an expression of a statement, of a filter or of a `__finally` block.
pub fn named()
    ensures { WalksAreNamed }
{}
