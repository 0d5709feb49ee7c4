use crate::samples::assert_same;
use grain_base::{Caps, Flags};

/// Each capability, by its bit from the lowest on.
const NAMED: [Caps; 15] = [
    Caps::FUNCTION,
    Caps::ARRAY,
    Caps::BLOB,
    Caps::MAP,
    Caps::FN_PTR,
    Caps::CURRYING,
    Caps::SHARING,
    Caps::THIS,
    Caps::INDEXING,
    Caps::PROPERTY,
    Caps::METHOD,
    Caps::MODULE,
    Caps::EXPORT,
    Caps::IMPORT,
    Caps::CUSTOM_SYNTAX,
];

#[test]
fn capabilities_are_sets_of_bits(rt: HostRuntime) {
    let mut bits = 1u16;
    let mut all = Caps::empty();
    for caps in NAMED {
        assert_same(&rt, Caps::from_bits(bits), Some(caps));
        bits = bits.wrapping_mul(2);
        all = all.union(caps);
        let (there, left) = (all.contains(caps), all.difference(caps).contains(caps));
        assert_same(&rt, (there, left), (true, false));
    }
    assert_same(&rt, (all, all.bits()), (Caps::all(), 0x7fff));
}
