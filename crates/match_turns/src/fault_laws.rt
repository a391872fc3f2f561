//! Laws of operations that fault, and that are made again.

ghost use Rattle.match_turns.specs.FaultLaws.{UndefinedAccessesAreMatched, OperandsAreFetched, RetriesAreMatched, ContinuationsAtOperations, OperationsAreMatched};

/// Where linear code makes an operation, the machine makes it too, or raises its fault; so it does
/// where the operation is made again after a filter has continued the fault, from the machine
/// instruction that had faulted. Where a reserved byte is touched, linear code has ended.
pub fn laws()
    ensures undefined { UndefinedAccessesAreMatched }
    ensures fetched { OperandsAreFetched }
    ensures retries { RetriesAreMatched }
    ensures continuations { ContinuationsAtOperations }
    ensures operations { OperationsAreMatched }
{}
