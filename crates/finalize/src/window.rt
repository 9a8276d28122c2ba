ghost use Rattle.std.specs.Prelude.{◌≡◌, Some};
ghost use Rattle.address.specs.Convention.{standard};
ghost use Rattle.address.specs.Address.{finalize_answer};
ghost use Rattle.address.specs.Held.{answer_in, when_ok};
ghost use Rattle.finalize.specs.Window.{with_outgoing};

use crate::finalize::mem_finalize;
use address::args::{Helpers, MemArg, MemInstType};
use address::frame::Frame;
use refusal::Refusal;

/// While it lives the frame has another outgoing offset; at its end the old one is put back.
pub struct CallWindow<'a> {
    frame: &'a mut Frame,
    old: u32,
}

impl Drop for CallWindow<'_> {
    fn drop(self)
        ensures { self.exit.0.now ≡ with_outgoing self.entry.frame.now self.entry.old }
    {
        self.frame.outgoing_sp_offset = self.old;
        let CallWindow { frame: _, old: _ } = self;
    }
}

impl<'a> CallWindow<'a> {
    /// Opens a window on the frame.
    pub fn open(frame: &'a mut Frame, outgoing_sp_offset: u32) -> CallWindow<'a>
        ensures old { result.old ≡ frame.old.outgoing_sp_offset }
        ensures set { result.frame.now ≡ with_outgoing frame.old outgoing_sp_offset }
        ensures same { result.frame.ghost_name ≡ frame.entry.ghost_name }
    {
        let old = frame.outgoing_sp_offset;
        frame.outgoing_sp_offset = outgoing_sp_offset;
        CallWindow { frame, old }
    }

    /// The frame as it is in the window.
    pub fn frame(&self) -> &Frame
        ensures { result.now ≡ self.entry.now.frame.now }
    {
        &*self.frame
    }
}

/// Finalizes an address in a window: the frame is as before at every way out.
pub fn finalize_in_window(
    frame: &mut Frame,
    outgoing_sp_offset: u32,
    mem: &MemArg,
    mi: MemInstType,
) -> Result<(Helpers, MemArg), Refusal>
    ensures back { frame.new ≡ frame.old }
    ensures answer { when_ok answer_in result ≡ when_ok (λ x. Some x) (finalize_answer standard mi (with_outgoing frame.old outgoing_sp_offset) mem.now) }
{
    let window = CallWindow::open(frame, outgoing_sp_offset);
    mem_finalize(mem, window.frame(), mi)
}
