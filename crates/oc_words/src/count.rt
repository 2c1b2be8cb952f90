//! The number of functions that `--make` is asked for.
ghost use Rattle.std.specs.Prelude.{◌≡◌};
ghost use Rattle.std.specs.Str.{all_ascii_digits};
ghost use Rattle.oc_words.specs.Texts as texts;

/// The most functions that can be asked for.
const MOST_FUNCTIONS: u32 = 100_000;

// whether all bytes are ASCII digits
fn are_digits(text: &[u8]) -> bool
    ensures { result ≡ all_ascii_digits text.now }
{
    for byte in text {
        if !byte.is_ascii_digit() {
            return false;
        }
    }
    true
}

// whether the text is a decimal in ASCII digits that does not begin with 0
fn is_decimal(text: &[u8]) -> bool
    ensures { result ≡ texts.is_decimal text.now }
{
    match text {
        [first, ..] => *first > b'0' && are_digits(text),
        [] => false,
    }
}

/// The number of a decimal of 1 to 100,000 without a leading zero; `None` exactly for every other
/// text. Linear, no memory.
pub(crate) fn count_of(text: &str) -> Option<u32>
    ensures { result ≡ texts.count_of text.now }
{
    if !is_decimal(text.as_bytes()) {
        return None;
    }
    match text.parse::<u32>() {
        Ok(count) if count <= MOST_FUNCTIONS => Some(count),
        Ok(_) => None,
        Err(_) => None,
    }
}
