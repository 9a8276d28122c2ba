//! What addresses are for: finalizing keeps the place that is named, and an accepted access reaches it.

#![tactic(auto)]

ghost use Rattle.address_law.specs.Standing.{FinalizingStands};
ghost use Rattle.address_law.specs.Reaching.{AccessesReach};

/// For every lawful convention: the form that finalizing leaves is permitted and, after the helpers, names the same place; no register but the
/// temporary is changed.
pub fn finalizing_stands()
    ensures { FinalizingStands }
{}

/// For every lawful convention: the instructions of an accepted access reach the place that it names; no register but the temporary is changed.
pub fn accesses_reach()
    ensures { AccessesReach }
{}
