//! What the limits of a text say of the linear code of its program.

ghost use Rattle.text_bounds.specs.NestingLaws.{ResolvedIsShallow, AcceptedIsSmall};

/// What a text within the limits is resolved to is nested no deeper than the text, and names no
/// parameter of an exception after the fifteenth.
pub fn resolved_is_shallow()
    ensures shallow { ResolvedIsShallow }
{}

/// No body of an accepted text's program uses more than 1,000 words of 8 bytes, 460 of them beside
/// the locals, and 1,024 more for each 1 that its function weighs above 1; and each slot, function
/// and funclet that its linear code names is there.
pub fn accepted_is_small()
    ensures small { AcceptedIsSmall }
{}
