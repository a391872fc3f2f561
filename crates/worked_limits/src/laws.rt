//! Definitions at their edges.

ghost use Rattle.worked_limits.specs.Rows.{LocalsWeigh, HandlersAdded, LeftHeavy, LeftHandlerLands, LeftHandlerIsDeep, WalkInHandler};

/// What 256 locals and more weigh; that a sixteenth vectored handler is added and no seventeenth;
/// that an activation and a vectored handler that a target has left count by their weights until it
/// lands; and what a walk in a vectored handler shows. The programs show the same by their meaning
/// and by their linear code.
pub fn rows()
    ensures locals { LocalsWeigh }
    ensures handlers { HandlersAdded }
    ensures left_heavy { LeftHeavy }
    ensures left_handler_lands { LeftHandlerLands }
    ensures left_handler_is_deep { LeftHandlerIsDeep }
    ensures walk_in_handler { WalkInHandler }
{}
