use crate::samples::{assert_same, made};
use grain_base::varint::{Error, i64, put_i64, put_u64, u64};

/// The number that is read, and where the cursor is then.
fn read(bytes: &[u8]) -> (Result<u64, Error>, usize) {
    let mut at = 0;
    (u64(bytes, &mut at), at)
}

#[test]
fn reads_what_was_written(rt: HostRuntime) {
    for number in [0, 1, 127, 128, 16383, 16384, 4294967295, u64::MAX] {
        let mut out = Vec::new(rt.alloc());
        made(&rt, put_u64(&mut out, number));
        assert_same(&rt, read(&out), (Ok(number), out.len()));
    }
}

/// The signed number that is read, and where the cursor is then.
fn read_signed(bytes: &[u8]) -> (Result<i64, Error>, usize) {
    let mut at = 0;
    (i64(bytes, &mut at), at)
}

#[test]
fn reads_what_was_written_signed(rt: HostRuntime) {
    for number in [0, -1, 1, -64, 63, -2147483648, i64::MIN, i64::MAX] {
        let mut out = Vec::new(rt.alloc());
        made(&rt, put_i64(&mut out, number));
        assert_same(&rt, read_signed(&out), (Ok(number), out.len()));
    }
}

#[test]
fn writes_signed(rt: HostRuntime) {
    let mut out = Vec::new(rt.alloc());
    made(&rt, put_i64(&mut out, -64));
    made(&rt, put_i64(&mut out, -65));
    assert_same(&rt, out.as_slice(), [0x7fu8, 0x81, 0x01].as_slice());
}
