//! What holds of every stack.

ghost use Rattle.match_stack.specs.WalkLaws.{FrameIsVisited, LeafIsVisited, SearchIsPassed, UnwindingIsPassed, StackIsOver, KeptByOtherStores, NothingBelowIsOwned, SlotsAreFree, RecordIsOneMore, SearchIsOfTheList, UnwindingIsOfTheList};

/// A walk visits the items of a stack in order, and nothing else: so searches and unwindings are
/// those of the list. The stack holds as long as the code, the words that the frames' unwind codes
/// tell of, their return addresses and the records stay as they are. Nothing below the stack
/// pointer is among these bytes, and none of a frame's own slots. A record that is placed below a
/// stack is one item more.
pub fn laws()
    ensures frame { FrameIsVisited }
    ensures leaf { LeafIsVisited }
    ensures search { SearchIsPassed }
    ensures unwinding { UnwindingIsPassed }
    ensures over { StackIsOver }
    ensures kept { KeptByOtherStores }
    ensures below { NothingBelowIsOwned }
    ensures slots { SlotsAreFree }
    ensures one_more { RecordIsOneMore }
    ensures searched { SearchIsOfTheList }
    ensures unwound { UnwindingIsOfTheList }
{}
