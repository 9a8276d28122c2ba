ghost use Rattle.std.specs.Prelude.{◌≡◌, ◌*◌, ◌≤◌, length};
ghost use Rattle.refusal.specs.Numbers.{wrap, signed, big_endian, bytes_of_number};

/// The signed big-endian number in one to eight bytes.
pub(crate) fn signed_number(bytes: &[u8]) -> i64
    requires some { 1 ≤ length bytes.now }
    requires few { length bytes.now ≤ 8 }
    ensures { result ≡ signed (8 * length bytes.now) (big_endian 0 bytes.now) }
{
    let fill = if bytes[0] < 128 { 0 } else { 0xff };
    let mut wide = [fill; 8];
    wide[8 - bytes.len()..].copy_from_slice(bytes);
    i64::from_be_bytes(wide)
}

/// Writes the low bytes of a number over up to eight bytes, big-endian.
pub(crate) fn put_number(bytes: &mut [u8], number: i64)
    requires { length bytes.old ≤ 8 }
    ensures { bytes.new ≡ bytes_of_number (length bytes.old) (wrap (8 * length bytes.old) number) }
{
    let wide = number.to_be_bytes();
    // the lengths of most fields stand apart, so that a copy of so many bytes is a move
    match bytes.len() {
        2 => bytes.copy_from_slice(&wide[6..]),
        4 => bytes.copy_from_slice(&wide[4..]),
        count => bytes.copy_from_slice(&wide[8 - count..]),
    }
}
