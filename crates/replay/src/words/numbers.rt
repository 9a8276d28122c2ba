use crate::fault::Fault;
use crate::words::{Args, Argument};

/// A decimal number, or a hexadecimal one after `0x`.
fn magnitude(word: &str) -> Option<i128> {
    let size = match word.strip_prefix("0x") {
        Some(digits) => u128::from_str_radix(digits, 16).ok()?,
        None => u128::from_str_radix(word, 10).ok()?,
    };
    i128::try_from(size).ok()
}

/// The same with `-` in front where it is negative.
fn number(word: &str) -> Option<i128> {
    match word.strip_prefix('-') {
        Some(size) => magnitude(size)?.checked_neg(),
        None => magnitude(word),
    }
}

/// A number of the type that has this name.
fn in_range<T: TryFrom<i128>>(args: &mut Args, name: &'static str) -> Result<T, Fault>
where
    T::Error: Drop,
{
    let value = number(args.word()?).ok_or(Fault::NotNumber)?;
    T::try_from(value).map_err(|_| Fault::OutOfRange(name))
}

impl Argument for u8 {
    fn read(args: &mut Args) -> Result<u8, Fault> {
        in_range(args, "u8")
    }
}

impl Argument for u16 {
    fn read(args: &mut Args) -> Result<u16, Fault> {
        in_range(args, "u16")
    }
}

impl Argument for u32 {
    fn read(args: &mut Args) -> Result<u32, Fault> {
        in_range(args, "u32")
    }
}

impl Argument for u64 {
    fn read(args: &mut Args) -> Result<u64, Fault> {
        in_range(args, "u64")
    }
}

impl Argument for i16 {
    fn read(args: &mut Args) -> Result<i16, Fault> {
        in_range(args, "i16")
    }
}

impl Argument for i32 {
    fn read(args: &mut Args) -> Result<i32, Fault> {
        in_range(args, "i32")
    }
}

impl Argument for i64 {
    fn read(args: &mut Args) -> Result<i64, Fault> {
        in_range(args, "i64")
    }
}

/// A label, a constant or a symbol: any number of 32 bits.
impl Argument for usize {
    fn read(args: &mut Args) -> Result<usize, Fault> {
        Ok(args.read::<u32>()? as usize)
    }
}

/// 0 is false, any other number up to 255 is true.
impl Argument for bool {
    fn read(args: &mut Args) -> Result<bool, Fault> {
        Ok(args.read::<u8>()? != 0)
    }
}
