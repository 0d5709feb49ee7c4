//! The lines of an input, and which of them are cases.

ghost use Rattle.std.specs.Prelude.{◌≡◌};
ghost use Rattle.std.specs.Str.Lines.{strip_carriage_return};
ghost use Rattle.grain_lines.specs.Lines.{is_case};

/// The line without the carriage return at its end, if one is there.
pub fn without_return(line: &[u8]) -> &[u8]
    ensures { result.now ≡ strip_carriage_return line.now }
{
    match line {
        [front @ .., b'\r'] => front,
        _ => line,
    }
}

/// Whether the line is neither empty nor a comment.
pub fn is_case(line: &[u8]) -> bool
    ensures { result ≡ is_case line.now }
{
    !matches!(line, [] | [b'#', ..])
}
