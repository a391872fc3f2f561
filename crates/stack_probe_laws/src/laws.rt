//! What holds of a prologue's call of `__chkstk`.

ghost use Rattle.stack_probe_laws.specs.Laws.{ProbesComeBack};

/// A call of `__chkstk` with n bytes of a frame in RAX, at least a page, comes to its first byte in
/// one instruction, and back in 5 + 4 * (n / 4096) more. Then RAX, RSP, the other nonvolatile
/// registers, what memory may be accessed and the bytes from RSP up are as they were before.
pub fn probes()
    ensures { ProbesComeBack }
{}
