ghost use Rattle.std.specs.Prelude.{◌≡◌};

use crate::section::Promise;

impl Promise {
    /// The label's number.
    pub fn label(&self) -> usize
        ensures { result ≡ self.now.label }
    {
        self.label
    }
}
