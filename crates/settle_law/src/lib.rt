//! What settling does to the code, for any two lawful families.

#![tactic(auto)]

ghost use Rattle.settle_law.specs.Settled.{SettlingFills};

/// After settling every field that was zero, and shares no byte with another, holds its distance; outside the fields no byte is changed.
pub fn settling_fills()
    ensures { SettlingFills }
{}
