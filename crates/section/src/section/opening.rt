ghost use Rattle.std.specs.Prelude.{◌≡◌, ◌&&◌};
ghost use Rattle.field.specs.Family.{serves};
ghost use Rattle.address.specs.Held.{when_ok};
ghost use Rattle.section.specs.State.{books_of};
ghost use Rattle.section.specs.Opening.{Opening};

use crate::section::Section;
use crate::section::buffer::LARGEST_BUFFER;
use book::label_book::LabelBook;
use book::use_book::UseBook;
use field::family::FieldRead;
use field::fit::serves_section;
use refusal::{Reason, Refusal};
use std::alloc::Global;
use std::marker::PhantomData;

/// Whether a section takes both families.
fn both_serve<L: FieldRead, S: FieldRead>() -> bool
    ensures { result ≡ (serves L.FieldRead.fields && serves S.FieldRead.fields) }
{
    serves_section::<L>() && serves_section::<S>()
}

impl<L: FieldRead, S: FieldRead> Section<L, S> {
    /// An empty section for a buffer of this length. Refused by BUFFER and KIND, and for want of memory.
    pub fn open(code: &[u8], heap: Global) -> Result<Section<L, S>, Refusal>
        ensures { Opening L.FieldRead.fields S.FieldRead.fields code.now (when_ok books_of result) }
    {
        let room = code.len();
        if room > LARGEST_BUFFER {
            return Err(Refusal::at(0, Reason::Buffer));
        }
        if !both_serve::<L, S>() {
            return Err(Refusal::at(0, Reason::Kind));
        }
        let labels = LabelBook::new(heap).map_err(|reason| Refusal::at(0, reason))?;
        let uses = UseBook::new(heap).map_err(|reason| Refusal::at(0, reason))?;
        Ok(Section {
            room,
            len: 0,
            labels,
            uses,
            label_family: PhantomData,
            symbol_family: PhantomData,
        })
    }
}
