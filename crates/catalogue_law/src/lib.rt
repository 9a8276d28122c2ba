//! What a catalogue of opcodes means, and its laws.

#![tactic(auto)]

ghost use Rattle.catalogue_law.specs.Catalogue.{SoundnessIsKept};
ghost use Rattle.catalogue_law.specs.Laws.{OneEntry, WrittenIsReadBack, ReadIsWrittenAgain};

/// A new catalogue is sound, and admitting an opcode keeps it so.
pub fn soundness_is_kept()
    ensures { SoundnessIsKept }
{}

/// Under a sound catalogue an instruction's bytes belong to at most one entry; what is written is read back, also after further opcodes
/// were admitted; and what is read is a catalogued instruction with those very bytes.
pub fn reading_inverts_writing()
    ensures one { OneEntry }
    ensures back { WrittenIsReadBack }
    ensures again { ReadIsWrittenAgain }
{}
