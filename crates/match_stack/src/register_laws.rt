//! What holds of the registers of a body that continues.

ghost use Rattle.match_stack.specs.AllocatedFrames.{AllocationsAreTold, ToldAllocations};
ghost use Rattle.match_stack.specs.RegisterLaws.{LandingHasRegisters, LandedBodyHoldsLocals, RestoredHasRegisters, RecordsRestOnStack};

/// Where an unwinding lands, the nonvolatile registers are those that the walk has found for the
/// frame, and its body holds its locals in them and in its slots; where an exception is continued,
/// they are those that were saved. A suspended search or unwinding rests on none of them. A frame
/// that saves nothing is as its one code tells, and that is all that the code tells.
pub fn laws()
    ensures landing { LandingHasRegisters }
    ensures landed_body { LandedBodyHoldsLocals }
    ensures restored { RestoredHasRegisters }
    ensures records { RecordsRestOnStack }
    ensures allocations { AllocationsAreTold }
    ensures allocated { ToldAllocations }
{}
