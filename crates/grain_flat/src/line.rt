//! Texts without memory: no text that is written here has more than 128 bytes.
//!
//! A host can show a refusal when memory ran out, since its text takes none.
ghost use Rattle.std.specs.Prelude.{◌≡◌, ◌<◌, ◌≤◌, ◌+◌, ◌++◌, false, length};
ghost use Rattle.std.specs.Fmt.{digit_glyph};
ghost use Rattle.grain_rules.specs.Texts.{four_digits, named};

use arrayvec::ArrayVec;
use itoa::Buffer;

/// A text in the making, without memory.
pub type Line = ArrayVec<u8, 128>;

/// Adds bytes that fit.
pub(crate) fn put(line: &mut Line, bytes: &[u8])
    requires { length line.old.items + length bytes.now ≤ 128 }
    ensures items { line.new.items ≡ line.old.items ++ bytes.now }
    ensures long { length line.new.items ≡ length line.old.items + length bytes.now }
{
    let Ok(()) = line.try_extend_from_slice(bytes) else {
        unreachable!();
    };
}

/// Adds a number behind its name.
pub(crate) fn put_named(line: &mut Line, name: &str, number: u64)
    requires { length line.old.items + length name.now + 20 ≤ 128 }
    ensures items { line.new.items ≡ line.old.items ++ named name.now number }
    ensures long { length line.new.items ≤ length line.old.items + length name.now + 20 }
{
    put(line, name.as_bytes());
    let mut buffer = Buffer::new();
    put(line, buffer.format(number).as_bytes());
}

/// A hexadecimal digit in lower case.
fn hex_digit(value: u8) -> u8
    requires { value < 16 }
    ensures { result ≡ digit_glyph false value }
{
    if value < 10 { 48 + value } else { 87 + value }
}

/// A number as four hexadecimal digits in lower case.
pub(crate) fn hex_digits(bits: u16) -> [u8; 4]
    ensures { result ≡ four_digits bits }
{
    [
        hex_digit((bits / 4096) as u8),
        hex_digit((bits / 256 % 16) as u8),
        hex_digit((bits / 16 % 16) as u8),
        hex_digit((bits % 16) as u8),
    ]
}
