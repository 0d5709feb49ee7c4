//! The words of a line: a search for a byte, and what is before and after it.

ghost use Rattle.std.specs.Prelude.{◌≡◌, ◌<◌, ◌≤◌, [], ◌∷◌, ◌++◌, length, slice_index, take};
ghost use Rattle.std.specs.Prelude.{Contains, IfSome, IfNone};
ghost use Rattle.grain_lines.specs.Words.{words, Lacks, Skips, StartsWord};

/// How many bytes a search tests together: std's `contains` has no branch for each byte, so that this is much faster.
const BLOCK: usize = 32;

/// The text without the blocks at its front that lack the byte, up to one that has it.
fn skip_blocks(text: &[u8], byte: u8) -> &[u8]
    ensures skips { Skips byte text.now result.now }
    ensures stops { BLOCK ≤ length result.now → Contains (take BLOCK result.now) byte }
{
    let mut rest = text;
    'skipping: while let Some((block, more)) = rest.split_first_chunk::<BLOCK>() {
        if block.contains(&byte) {
            break;
        }
        rest = more;
    }
    rest
}

/// Where the first such byte is.
fn position_of(text: &[u8], byte: u8) -> Option<usize>
    ensures some { IfSome result (λ at. (at < length text.now) × (slice_index text.now at ≡ byte)) }
    ensures first { IfSome result (λ at. Lacks byte (take at text.now)) }
    ensures none { IfNone result (Lacks byte text.now) }
{
    let rest = skip_blocks(text, byte);
    let near = rest.iter().position(|b| *b == byte)?;
    Some(text.len() - rest.len() + near)
}

/// What is before the first such byte, and what is after it.
pub fn split_at_byte(text: &[u8], byte: u8) -> Option<(&[u8], &[u8])>
    ensures parts { IfSome result (λ found. text.now ≡ found.0.now ++ byte ∷ found.1.now) }
    ensures first { IfSome result (λ found. Lacks byte found.0.now) }
    ensures none { IfNone result (Lacks byte text.now) }
{
    let at = position_of(text, byte)?;
    Some((&text[..at], &text[at + 1..]))
}

fn skip_spaces(text: &[u8]) -> &[u8]
    ensures same { words result.now ≡ words text.now }
    ensures starts { StartsWord result.now }
{
    let mut rest = text;
    'skipping: while let [b' ', tail @ ..] = rest {
        rest = tail;
    }
    rest
}

/// The first word, and what follows it.
pub fn next_word(text: &[u8]) -> Option<(&[u8], &[u8])>
    ensures some { IfSome result (λ found. words text.now ≡ found.0.now ∷ words found.1.now) }
    ensures none { IfNone result (words text.now ≡ []) }
{
    let text = skip_spaces(text);
    if text.is_empty() {
        return None;
    }
    match split_at_byte(text, b' ') {
        Some((word, rest)) => Some((word, rest)),
        None => Some((text, &[])),
    }
}
