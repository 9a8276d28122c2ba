ghost use Rattle.std.specs.Prelude.{◌≡◌, ◌+◌, ◌≤◌, false, ◌&&◌, List, [], length};
ghost use Rattle.form.specs.declared.instr.Entry.{Entry};
ghost use Rattle.refusal.specs.Refusals.{first_refusal, answer};
ghost use Rattle.book.specs.Books.{uses_full, leaves_use};
ghost use Rattle.book.specs.Listed.{uses_in};
ghost use Rattle.settle_law.specs.Settle.{write_at};
ghost use Rattle.law.specs.Section.{other_buffer, Call};
ghost use Rattle.section.specs.State.{books_of, state};
ghost use Rattle.section.specs.Extended.{end_checks, kind_by, extended};

use crate::section::Section;
use book::target::{Target, Use};
use codec::encode::Encoded;
use refusal::{Reason, Refusal};

/// The most bytes that a code buffer has.
pub const LARGEST_BUFFER: usize = 1048576;

/// Writes an instruction's bytes over the code, from `place` on.
fn lay(code: &mut [u8], place: usize, bytes: &[u8])
    requires { place + length bytes.now ≤ length code.old }
    ensures { code.new ≡ write_at place bytes.now code.old }
{
    let past = place + bytes.len();
    code[place..past].copy_from_slice(bytes);
}

/// The kind of field that an instruction of so many bytes has.
fn kind_by(count: usize) -> u8
    ensures { result ≡ kind_by count }
{
    if count == 4 { 1 } else { 2 }
}

impl<L, S> Section<L, S> {
    /// Whether a buffer cannot be the section's: it is too long, or has not the length that the section was opened with.
    pub(crate) fn is_other(&self, code: &[u8]) -> bool
        ensures { result ≡ other_buffer (state self.now [] code.now) }
    {
        code.len() > LARGEST_BUFFER || code.len() != self.room
    }

    /// FULL and ROOM, where so many bytes more, aimed or not, cannot be written.
    pub(crate) fn space(&self, aimed: bool, count: usize) -> Result<(), Refusal>
        ensures answers { result ≡ answer self.now.len (first_refusal (end_checks (books_of self.now) aimed count)) tt }
        ensures few { length (uses_in self.now.uses) ≤ 1024 }
    {
        let full = self.uses.is_full();
        if aimed && full {
            return Err(Refusal::at(self.len, Reason::Full));
        }
        if count > self.room - self.len {
            return Err(Refusal::at(self.len, Reason::Room));
        }
        Ok(())
    }

    // That the buffer has the section's length is a fact of two values that meet at a call, so each function asks it.

    /// Writes an instruction's bytes at the end, and records the use of what it is aimed at.
    pub(crate) fn extend(&mut self, code: &mut [u8], encoded: &Encoded, aim: Option<Target>)
        requires ours { length code.old ≡ self.old.room }
        requires fits { self.old.len + length encoded.now ≤ self.old.room }
        requires uses { (leaves_use aim && uses_full (books_of self.old)) ≡ false }
        ensures { (es : List Entry) → state self.new es code.new ≡ extended (state self.old es code.old) encoded.now aim }
    {
        let place = self.len;
        lay(code, place, encoded.as_slice());
        self.len = place + encoded.len();
        if let Some(target) = aim {
            let kind = kind_by(encoded.len());
            let _ = self.uses.record_use(Use {
                place,
                kind,
                target,
            });
        }
    }

    /// The same, if there is space.
    pub(crate) fn append(
        &mut self,
        code: &mut [u8],
        encoded: &Encoded,
        aim: Option<Target>,
    ) -> Result<(), Refusal>
        requires { length code.old ≡ self.old.room }
        ensures { (es : List Entry) → Call (first_refusal (end_checks (books_of self.old) (leaves_use aim) (length encoded.now))) tt (state self.old es code.old) (extended (state self.old es code.old) encoded.now aim) result (state self.new es code.new) }
    {
        self.space(aim.is_some(), encoded.len())?;
        self.extend(code, encoded, aim);
        Ok(())
    }
}
