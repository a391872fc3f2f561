//! What the linear code of worked programs shows.

ghost use Rattle.worked_programs.specs.LeftActivations.{LeftActivations};
ghost use Rattle.worked_programs.specs.LinearRows.{SumAndReturn, NullStoreCaught, FilterThenFinally, ContinueSameOperand, ReturnFlags, LeaveFlags, DivisionFaults, DivisionByZero, RaiseInFilter, RaiseInFinally, ContinueNoncontinuable, FilterAskedOnce, CollidedTwice, WalkInFilter, WalkAfterCollision, TargetInOuterActivation, TwoFilters, BreakThroughFinally, ReturnThroughTwo, StoreAcrossPages, FaultAddress, ReservedAccess, Conversions, Operators, SixArguments, Loops, DeepRecursion, EndlessRecursion, AskedFirst, HandlerContinues, AskedAgain, SumToArgument};

/// Each program shows by its linear code, in three turns a step, what it means.
pub fn rows()
    ensures sum_and_return { SumAndReturn }
    ensures null_store_caught { NullStoreCaught }
    ensures filter_then_finally { FilterThenFinally }
    ensures continue_same_operand { ContinueSameOperand }
    ensures return_flags { ReturnFlags }
    ensures leave_flags { LeaveFlags }
    ensures division_faults { DivisionFaults }
    ensures division_by_zero { DivisionByZero }
    ensures raise_in_filter { RaiseInFilter }
    ensures raise_in_finally { RaiseInFinally }
    ensures continue_noncontinuable { ContinueNoncontinuable }
    ensures filter_asked_once { FilterAskedOnce }
    ensures collided_twice { CollidedTwice }
    ensures walk_in_filter { WalkInFilter }
    ensures walk_after_collision { WalkAfterCollision }
    ensures target_in_outer_activation { TargetInOuterActivation }
    ensures two_filters { TwoFilters }
    ensures break_through_finally { BreakThroughFinally }
    ensures return_through_two { ReturnThroughTwo }
    ensures store_across_pages { StoreAcrossPages }
    ensures fault_address { FaultAddress }
    ensures reserved_access { ReservedAccess }
    ensures conversions { Conversions }
    ensures operators { Operators }
    ensures six_arguments { SixArguments }
    ensures loops { Loops }
    ensures deep_recursion { DeepRecursion }
    ensures endless_recursion { EndlessRecursion }
    ensures asked_first { AskedFirst }
    ensures handler_continues { HandlerContinues }
    ensures asked_again { AskedAgain }
    ensures sum_to_argument { SumToArgument }
    ensures left_activations { LeftActivations }
{}
