//! Accesses to memory: the plan of what one writes.

#![tactic(auto)]

ghost use Rattle.access.specs.Specimens.{AddressSpecimens};

pub mod plan;

/// The worked examples of instructions and addresses hold of the definitions.
pub fn specimens()
    ensures { AddressSpecimens }
{}
