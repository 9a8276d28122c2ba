//! Reads finished code, one instruction after another, by a catalogue.

#![tactic(auto)]

ghost use Rattle.std.specs.Prelude.{◌≡◌, ◌≤◌, length};
ghost use Rattle.catalogue_law.specs.Catalogue.{read_step};
ghost use Rattle.catalogue.specs.Listed.{entries_in};

use catalogue::catalogue::Catalogue;
use form::instr::Placed;
use refusal::Refusal;

/// Code and the catalogue to read it by, and the byte at which reading stands.
#[derive(Drop)]
pub struct Reader<'a> {
    catalogue: &'a Catalogue,
    code: &'a [u8],
    place: usize,
}

impl<'a> Reader<'a> {
    /// A reader at byte 0.
    pub fn new(catalogue: &'a Catalogue, code: &'a [u8]) -> Reader<'a>
        ensures by { result.catalogue.now ≡ catalogue.now }
        ensures of { result.code.now ≡ code.now }
        ensures start { result.place ≡ 0 }
    {
        Reader {
            catalogue,
            code,
            place: 0,
        }
    }

    /// The byte at which reading stands.
    pub fn place(&self) -> usize
        ensures { result ≡ self.now.place }
    {
        self.place
    }

    /// The instruction here, none at the end. Refused by CUT, UNKNOWN and UNUSED; then, and at the end, the reader stays.
    pub fn next(&mut self) -> Result<Option<Placed>, Refusal>
        ensures step { (result, self.new.place) ≡ read_step (entries_in self.old.catalogue.now) self.old.code.now self.old.place }
        ensures by { self.new.catalogue.now ≡ self.old.catalogue.now }
        ensures of { self.new.code.now ≡ self.old.code.now }
    {
        let place = self.place;
        let code = self.code;
        if place > code.len() {
            return Ok(None);
        }
        let (answer, rest) = self.catalogue.read_one(&code[place..], place);
        self.place = code.len() - rest.len();
        answer
    }
}
