//! The law of the weight of a text's program.

ghost use Rattle.text_bounds.specs.WeightLaws.{WeightIsBounded};

/// Where each node adds at most so much and each local 1, a text's program weighs at most that and
/// 1 for each of its nodes.
pub fn laws()
    ensures bounded { WeightIsBounded }
{}
