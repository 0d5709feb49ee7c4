//! Signed numbers, and the numbers that encode them.
ghost use Rattle.std.specs.Prelude.{◌≡◌, ◌<◌, ◌^◌, ◌++◌, OnOk};
ghost use Rattle.grain_base.specs.Varint.{zigzag};
ghost use Rattle.grain_format.specs.FormAt.{integer_at, signed};
ghost use Rattle.grain_format.specs.Numbers.{number};
ghost use Rattle.grain_format.specs.Reading.{Gives};

use crate::cursor::Cursor;
use crate::error::Stop;
use crate::number::put_number;
use std::alloc::AllocError;

/// The signed number that a number encodes.
fn signed(n: u64) -> i64
    ensures { result ≡ signed n }
{
    let half = (n / 2) as i64;
    if n % 2 == 0 { half } else { -half - 1 }
}

/// The number that encodes a signed one.
fn zigzag(z: i64) -> u64
    ensures { result ≡ zigzag z }
{
    if z < 0 {
        2 * (-(z + 1)) as u64 + 1
    } else {
        2 * z as u64
    }
}

/// Reads a signed number.
pub(crate) fn read_integer(cursor: &mut Cursor<'_>) -> Result<i64, Stop>
    ensures { Gives (λ z. z) result cursor.new.left.now (integer_at cursor.old.left.now) }
{
    let n = cursor.number()?;
    Ok(signed(n))
}

/// Appends a signed number.
pub(crate) fn put_integer(out: &mut Vec<u8>, z: i64) -> Result<(), AllocError>
    ensures spelled { OnOk result (out.new.items ≡ out.old.items ++ number (zigzag z)) }
    ensures fits { zigzag z < 2 ^ 64 }
{
    put_number(out, zigzag(z))?;
    Ok(())
}
