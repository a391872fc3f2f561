//! What holds of every program, and what some programs show.

ghost use Rattle.source_meaning.specs.Laws as laws_of;
ghost use Rattle.source_meaning.specs.Meaning.{meaning};
ghost use Rattle.source_meaning.specs.Rows as shown;
ghost use Rattle.source_meaning.specs.MoreRows as shown_more;
ghost use Rattle.source_meaning.specs.WalkRows.{WalkInFilter, WalkAfterCollision, WalkRowsAreSound};
ghost use Rattle.source_meaning.specs.VectoredRows as vectored;
ghost use Rattle.source_meaning.specs.SoundRows.{RowsAreSound};

/// A task is one step and then its case, and leaves no more steps than there were. What n steps
/// show is the front of what more steps show, and a program that has ended shows nothing more.
pub fn laws()
    ensures does_is { laws_of.DoesIs }
    ensures never_rises { laws_of.NeverRises }
    ensures shows_more { laws_of.ShowsMore meaning }
    ensures end_stays { laws_of.EndStays meaning }
    ensures calm_before { laws_of.CalmBefore }
    ensures events_grow { laws_of.EventsGrow }
{}

/// Programs with one exception, with one in a filter and with one in a `__finally` block, and all
/// their events.
pub fn rows()
    ensures sum_and_return { shown.SumAndReturn }
    ensures null_store_caught { shown.NullStoreCaught }
    ensures filter_then_finally { shown.FilterThenFinally }
    ensures continue_same_operand { shown.ContinueSameOperand }
    ensures return_and_leave_flags { shown.ReturnAndLeaveFlags }
    ensures division_faults_unhandled { shown.DivisionFaultsUnhandled }
    ensures raise_in_filter { shown.RaiseInFilter }
    ensures raise_in_finally { shown.RaiseInFinally }
    ensures continue_noncontinuable { shown.ContinueNoncontinuable }
{}

/// Programs with collided exceptions, jumps out of bodies, accesses, operators, calls and loops.
pub fn more_rows()
    ensures filter_asked_once_under_collision { shown_more.FilterAskedOnceUnderCollision }
    ensures collided_twice { shown_more.CollidedTwice }
    ensures target_in_outer_activation { shown_more.TargetInOuterActivation }
    ensures two_filters_of_one_fault { shown_more.TwoFiltersOfOneFault }
    ensures break_through_finally { shown_more.BreakThroughFinally }
    ensures return_through_two_finallys { shown_more.ReturnThroughTwoFinallys }
    ensures store_across_pages { shown_more.StoreAcrossPages }
    ensures fault_address_in_filter { shown_more.FaultAddressInFilter }
    ensures undefined_reserved_access { shown_more.UndefinedReservedAccess }
    ensures conversions_and_shifts { shown_more.ConversionsAndShifts }
    ensures operators { shown_more.Operators }
    ensures six_arguments { shown_more.SixArguments }
    ensures sum_to_argument { shown_more.SumToArgument }
    ensures loops { shown_more.Loops }
    ensures deep_recursion { shown_more.DeepRecursion }
    ensures sound { RowsAreSound }
{}

/// Programs that show their live activations, from a filter, from a block and after a collision.
pub fn walk_rows()
    ensures walk_in_filter { WalkInFilter }
    ensures walk_after_collision { WalkAfterCollision }
    ensures sound { WalkRowsAreSound }
{}

/// Programs with vectored handlers: one that is asked before a filter, one that continues, and one
/// of two that is asked again.
pub fn vectored_rows()
    ensures asked_first { vectored.VectoredHandlerAskedFirst }
    ensures continues { vectored.VectoredHandlerContinues }
    ensures asked_again { vectored.VectoredHandlerAskedAgain }
    ensures sound { vectored.VectoredRowsAreSound }
{}
