ghost use Rattle.std.specs.Prelude.{◌≡◌, ◌≤◌, length, drop, IfSome};
ghost use Rattle.form.specs.Form.{size as size_of};
ghost use Rattle.catalogue_law.specs.Catalogue.{matches, find, read_rest};
ghost use Rattle.catalogue.specs.Listed.{entries_in, taken};

use crate::catalogue::Catalogue;
use crate::entry::{is_match, length_by_first_byte};
use codec::decode::decode;
use form::instr::{Entry, Instr, Placed};
use refusal::{Reason, Refusal};

/// The first entry for these bytes.
fn find_entry(entries: &[Entry], bytes: &[u8]) -> Option<Entry>
    ensures is { result ≡ find (matches bytes.now) entries.now }
    ensures long { IfSome result (λ e. length bytes.now ≡ size_of e.form) }
{
    entries.iter().find(|e| is_match(**e, bytes)).copied()
}

/// How many bytes an answer of reading has taken.
fn size_read(answer: &Result<Option<Placed>, Refusal>) -> usize
    ensures { result ≡ taken answer.now }
{
    // one match is plainer than steps through both layers of the answer
    match answer {
        Ok(Some(read)) => read.instr.form.size(),
        Ok(None) | Err(_) => 0,
    }
}

impl Catalogue {
    /// The instruction that the bytes begin with.
    fn first(&self, bytes: &[u8], place: usize) -> Result<Option<Placed>, Refusal>
        ensures is { result ≡ read_rest (entries_in self.now) place bytes.now }
        ensures within { taken result ≤ length bytes.now }
    {
        let [first, ..] = bytes else {
            return Ok(None);
        };
        let count = length_by_first_byte(*first);
        if bytes.len() < count {
            return Err(Refusal::at(place, Reason::Cut));
        }
        let head = &bytes[..count];
        let entry = find_entry(self.entries.as_slice(), head).ok_or(Refusal::at(
            place,
            Reason::Unknown,
        ))?;
        let operands = decode(entry.form, head).ok_or(Refusal::at(place, Reason::Unused))?;
        let instr = Instr::new(entry, operands);
        Ok(Some(Placed { place, instr }))
    }

    /// Reads the instruction that the bytes begin with, none where there are no bytes, and answers the bytes behind it. Refused by CUT,
    /// UNKNOWN and UNUSED; then, and at the end, the bytes are answered as they were.
    pub fn read_one<'a>(
        &self,
        bytes: &'a [u8],
        place: usize,
    ) -> (Result<Option<Placed>, Refusal>, &'a [u8])
        ensures answers { result.0 ≡ read_rest (entries_in self.now) place bytes.now }
        ensures rest { result.1.now ≡ drop (taken result.0) bytes.now }
        ensures within { taken result.0 ≤ length bytes.now }
    {
        let answer = self.first(bytes, place);
        let count = size_read(&answer);
        (answer, &bytes[count..])
    }
}
