ghost use Rattle.std.specs.Prelude.{◌≡◌};

use crate::section::Section;

impl<L, S> Section<L, S> {
    /// How many bytes are written.
    pub fn len(&self) -> usize
        ensures { result ≡ self.now.len }
    {
        self.len
    }

    /// How many bytes the buffer had when the section was opened.
    pub fn room(&self) -> usize
        ensures { result ≡ self.now.room }
    {
        self.room
    }
}
