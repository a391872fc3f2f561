//! What keeps a cache in agreement with memory.

ghost use Rattle.x64_decoded.specs.Laws.{
  CachesStayCoherent,
  EffectsKeepFixed,
  KeepingIsTransitive,
  ProtectKeepsFixed,
  StepsKeepFixed,
  StoresKeepFixed,
};

/// A store, `protect`, the effect of an instruction and a step leave protection and byte of each
/// address outside the arena that may not be written, and a cache agrees with memory after such
/// changes if it did before.
pub fn laws()
    ensures stores { StoresKeepFixed }
    ensures protect { ProtectKeepsFixed }
    ensures effects { EffectsKeepFixed }
    ensures steps { StepsKeepFixed }
    ensures transitive { KeepingIsTransitive }
    ensures caches { CachesStayCoherent }
{}
