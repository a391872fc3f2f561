//! What a text is resolved to sees of its locals.

ghost use Rattle.c_resolved.specs.ScopeLaws.{ResolvedIsScoped};

/// Each local that a part of a resolved program names is a parameter, or was declared before, in a
/// block around the part.
pub fn resolved_is_scoped()
    ensures scoped { ResolvedIsScoped }
{}
