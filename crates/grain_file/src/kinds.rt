//! Which kind of file bytes are.
ghost use Rattle.std.specs.Prelude.{◌≡◌, Some};
ghost use Rattle.grain_file.specs.Kinds.{IsOfKind};
ghost use Rattle.grain_file.specs.ProgramFile.{Bounds, IsFile, Kept};
ghost use Rattle.grain_file.specs.SidecarFile.{IsSidecarFile, SidecarParts};

/// A kind of file, as its first bytes say.
#[derive(Clone, Copy, Debug, PartialEq, Eq)]
pub enum FileKind {
    /// A program file of version 2.
    Program,
    /// A sidecar file of version 2.
    Sidecar,
    /// The bytes begin as these files do, with another version or kind.
    Unknown,
}

/// Which kind of file bytes are, by the first six; `None` if they don't begin with `\0grn`. The rest may be malformed.
pub fn kind_of(bytes: &[u8]) -> Option<FileKind>
    ensures kind { IsOfKind bytes.now result }
    // Each file is known by its kind.
    ensures program { (bounds : Bounds) (k : Kept) → IsFile bounds bytes.now k
        → result ≡ Some FileKind.Program }
    ensures sidecar { (k : SidecarParts) → IsSidecarFile bytes.now k
        → result ≡ Some FileKind.Sidecar }
{
    head_kind(bytes)
}

/// What the first six bytes say.
fn head_kind(bytes: &[u8]) -> Option<FileKind>
    ensures { IsOfKind bytes.now result }
{
    match bytes {
        [0x00, 0x67, 0x72, 0x6e, 2, 0, ..] => Some(FileKind::Program),
        [0x00, 0x67, 0x72, 0x6e, 2, 1, ..] => Some(FileKind::Sidecar),
        [0x00, 0x67, 0x72, 0x6e, ..] => Some(FileKind::Unknown),
        _ => None,
    }
}
