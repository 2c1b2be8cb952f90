//! Texts that end at a NUL.
ghost use Rattle.std.specs.Prelude.{◌≡◌, None, Some, MatchOption};
ghost use Rattle.oc_shelf.specs.Reading.Texts as texts;
ghost use Rattle.oc_shelf.specs.Reading.Texts.{short};

use memchr::memchr;

/// The text at `at`, an offset in the bytes, if it has at most `most` bytes; `None` exactly where
/// it has more, or where there is no NUL at or after `at`. Linear in `most`, whatever the bytes
/// are.
pub fn text_at(bytes: &[u8], at: usize, most: usize) -> Option<&[u8]>
    ensures { MatchOption result (short most (texts.text_at bytes.now at) ≡ None) (λ text. short most (texts.text_at bytes.now at) ≡ Some text.now) }
{
    if at >= bytes.len() {
        return None;
    }
    front_text(&bytes[at..], most)
}

// the text at the start of the bytes, if it has at most `most` bytes
fn front_text(bytes: &[u8], most: usize) -> Option<&[u8]>
    ensures { MatchOption result (short most (texts.text_within bytes.now) ≡ None) (λ text. short most (texts.text_within bytes.now) ≡ Some text.now) }
{
    let front = &bytes[..bytes.len().min(most.saturating_add(1))];
    match memchr(0, front) {
        Some(end) => Some(&front[..end]),
        None => None,
    }
}
