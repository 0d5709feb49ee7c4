//! Texts that know how many characters they have.
ghost use Rattle.std.specs.Prelude.{◌≡◌, string_bytes};

use std::alloc::{AllocError, Global};

/// A text with its number of characters. If each of them is one byte, a character is found in constant time.
#[derive(Clone, PartialEq, Eq, PartialOrd, Ord, Drop)]
pub struct Text {
    string: String,
    /// How many characters there are.
    count: usize,
}

impl Text {
    /// The empty text.
    #[must_use]
    pub fn new(alloc: Global) -> Text {
        Text {
            string: String::new(alloc),
            count: 0,
        }
    }

    /// This text. It looks at each character once.
    #[must_use]
    pub fn of(string: String) -> Text
        ensures { result.string ≡ string }
    {
        let count = string.as_str().chars().count();
        Text { string, count }
    }

    /// The text itself.
    #[inline(always)]
    #[must_use]
    pub fn as_str(&self) -> &str
        ensures { result.now ≡ string_bytes self.now.string }
    {
        self.string.as_str()
    }

    /// The text itself.
    #[must_use]
    pub fn into_string(self) -> String {
        self.string
    }

    /// How many bytes there are.
    #[must_use]
    pub fn len(&self) -> usize {
        self.string.len()
    }

    /// Whether there are no characters.
    #[must_use]
    pub fn is_empty(&self) -> bool {
        self.string.is_empty()
    }

    /// How many characters there are, in constant time.
    #[must_use]
    pub fn count(&self) -> usize {
        self.count
    }

    /// Whether each character is one byte, in constant time.
    #[must_use]
    pub fn is_ascii(&self) -> bool {
        self.count == self.string.len()
    }

    /// The character at an index, if there is one. It walks over the characters before it, unless each is one byte.
    #[must_use]
    pub fn character(&self, place: usize) -> Option<char> {
        let (_, rest) = self.split_at(place);
        rest.chars().next()
    }

    /// The characters before an index, and the others. It walks as [`character`](Text::character).
    #[must_use]
    pub fn split_at(&self, place: usize) -> (&str, &str) {
        split(self.as_str(), place, self.is_ascii())
    }

    /// The characters from one index up to another. It walks as [`character`](Text::character), up to the second index.
    #[must_use]
    pub fn part(&self, first: usize, end: usize) -> &str {
        let (_, rest) = self.split_at(first);
        let (part, _) = split(rest, end.saturating_sub(first), self.is_ascii());
        part
    }

    /// Appends a character.
    ///
    /// # Errors
    /// Out of memory; nothing was appended.
    pub fn push(&mut self, character: char) -> Result<(), AllocError> {
        self.string.push(character)?;
        self.count = self.count.saturating_add(1);
        Ok(())
    }

    /// Appends a text. It looks at each character of that once.
    ///
    /// # Errors
    /// Out of memory; nothing was appended.
    pub fn push_str(&mut self, other: &str) -> Result<(), AllocError> {
        self.string.push_str(other)?;
        self.count = self.count.saturating_add(other.chars().count());
        Ok(())
    }

    /// Takes the last character off.
    pub fn pop(&mut self) -> Option<char> {
        let character = self.string.pop()?;
        self.count = self.count.saturating_sub(1);
        Some(character)
    }
}

/// The characters before an index, and the others. If each is one byte, it walks over none.
fn split(text: &str, place: usize, is_ascii: bool) -> (&str, &str) {
    let at = if is_ascii {
        place
    } else {
        match text.char_indices().nth(place) {
            Some((at, _)) => at,
            None => text.len(),
        }
    };
    text.split_at_checked(at).unwrap_or((text, ""))
}
