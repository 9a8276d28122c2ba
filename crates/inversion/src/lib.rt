//! Decoding inverts encoding, for every form: the statement, and its proof once over all rows of digits.

#![tactic(auto)]

ghost use Rattle.inversion.specs.Inversion.{ReadingInvertsWriting};

/// For every form: operands of their kinds and the opcode come back, as one list, from the encoded bytes; and bytes with no unused digit
/// and no unused bit of RXB set are the encoding of what they decode to.
pub fn reading_inverts_writing()
    ensures { ReadingInvertsWriting }
{}
