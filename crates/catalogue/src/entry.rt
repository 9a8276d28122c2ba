ghost use Rattle.std.specs.Prelude.{◌≡◌, ◌^◌, length, nat_le};
ghost use Rattle.form.specs.Form.{opcode_digits};
ghost use Rattle.catalogue_law.specs.Catalogue.{length_by_first_byte, first_byte, misfit as misfits, clashes as clashing, matches};

use codec::decode::opcode_in;
use form::instr::Entry;
use form::table::OpcodeDigits;

/// How many bytes an instruction has, by its first one.
pub fn length_by_first_byte(first: u8) -> usize
    ensures { result ≡ length_by_first_byte first }
{
    match first {
        0x00..=0x3f => 2,
        0x40..=0xbf => 4,
        0xc0..=0xff => 6,
    }
}

/// The first byte of an opcode, above 255 where it has too many digits.
fn first_byte(entry: Entry) -> u16
    ensures is { result ≡ first_byte entry.form entry.opcode }
    ensures wide { nat_le 256 result ≡ nat_le (16 ^ length (opcode_digits entry.form)) entry.opcode }
{
    match entry.form.opcode_digits() {
        OpcodeDigits::Two => entry.opcode,
        OpcodeDigits::Three => entry.opcode / 16,
        OpcodeDigits::FourFront | OpcodeDigits::FourEnds => entry.opcode / 256,
    }
}

/// Whether an opcode has more digits than its form's row, or its first byte means another length.
pub fn misfit(entry: Entry) -> bool
    ensures { result ≡ misfits entry.form entry.opcode }
{
    let first = first_byte(entry);
    first >= 256 || length_by_first_byte(first as u8) != entry.form.size()
}

/// Whether an entry clashes with another, `e`: with the same first byte, the rest of the opcode stands in other digits, or the opcode is the
/// same.
pub fn clashes(entry: Entry, e: Entry) -> bool
    ensures { result ≡ clashing entry.form entry.opcode e }
{
    if first_byte(e) != first_byte(entry) {
        return false;
    }
    e.form.opcode_digits() != entry.form.opcode_digits() || e.opcode == entry.opcode
}

/// Whether the bytes are as many as the entry's form has, with its opcode's digits.
pub fn is_match(e: Entry, bytes: &[u8]) -> bool
    ensures { result ≡ matches bytes.now e }
{
    opcode_in(e.form, bytes) == Some(e.opcode)
}
