use crate::fault::Fault;
use crate::forms::form_of;
use crate::words::{Args, Argument};
use form::Form;

impl Argument for Form {
    fn read(args: &mut Args) -> Result<Form, Fault> {
        form_of(args.word()?).ok_or(Fault::UnknownForm)
    }
}

/// Up to eight bytes, two hexadecimal digits a byte; the others are 0. An array and a count, so that no memory is asked for.
#[derive(Clone, Copy, PartialEq, Eq, Debug)]
pub struct Bytes {
    bytes: [u8; 8],
    count: usize,
}

impl Bytes {
    pub fn as_slice(&self) -> &[u8] {
        self.bytes.get(..self.count).unwrap_or(&[])
    }
}

impl Argument for Bytes {
    fn read(args: &mut Args) -> Result<Bytes, Fault> {
        let word = args.word()?;
        let count = word.len() / 2;
        let mut bytes = [0; 8];
        let given = bytes.get_mut(..count).ok_or(Fault::NotBytes)?;
        hex::decode_to_slice(word, given)?;
        Ok(Bytes { bytes, count })
    }
}
