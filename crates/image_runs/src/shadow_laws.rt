//! Walks at every turn of a run.

ghost use Rattle.image_runs.specs.ShadowWalks.{ImagesWalkTheShadow, CompiledWalkTheShadow, AcceptedWalkTheShadow};

/// At every turn of the run of a compiled image, up to its end, the walk over the stack gives
/// exactly the shadow: of each routine that has not returned, innermost first, the return address,
/// the stack pointer after the return and the nonvolatile registers that its caller had at the
/// call; and then RIP 0.
pub fn laws()
    ensures images { ImagesWalkTheShadow }
    ensures compiled { CompiledWalkTheShadow }
    ensures texts { AcceptedWalkTheShadow }
{}
