//! What holds of every list and record.

ghost use Rattle.match_stack.specs.RecordLaws.{RecordLeavesTheList, SearchIsOneMore, UnwindingIsOneMore, PushedRecordLeavesOthers, ReturnAddressIsPushed};

/// Where the host suspends a search or an unwinding, the list of what waits has one item more: its
/// record is below the stack, with the return address of its funclet below it. All that was
/// above still is. Outside the stack no byte changes, no code, and no protection.
pub fn laws()
    ensures list { RecordLeavesTheList }
    ensures search { SearchIsOneMore }
    ensures unwinding { UnwindingIsOneMore }
    ensures others { PushedRecordLeavesOthers }
    ensures returns { ReturnAddressIsPushed }
{}
