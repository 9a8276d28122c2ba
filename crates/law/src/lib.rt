//! The calls on a section, as steps over plain lists; the inventory that a list of calls tells; and the law: a finished section says exactly
//! what the calls have put in.

#![tactic(auto)]

ghost use Rattle.law.specs.Law.{Law, InventoryMatches};

/// Along every run of calls from an opened section the section holds what the inventory tells.
pub fn inventory_matches()
    ensures { InventoryMatches }
{}

/// After any run of calls, accepted or refused, an accepted close leaves code that is faithful to the inventory of the calls: for every lawful
/// convention, any two lawful families, every catalogue and every buffer.
pub fn law_holds()
    ensures { Law }
{}
