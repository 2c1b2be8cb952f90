//! What is reported of words and of placements.
ghost use Rattle.std.specs.Prelude.{◌≡◌, IfOk};
ghost use Rattle.oc_linker.specs.Texts as texts;

use oc_base::{Bytes, NoMemory};
use oc_place::PlaceCode;
use std::alloc::Global;

/// The text for words that are not two names.
#[tactic(auto, unfolding(crate::specs::Texts::words_text))]
pub(crate) fn bad_words() -> &'static str
    ensures { result.now ≡ texts.words_text }
{
    "objlink: words: BadWords\n"
}

/// The text for a placement that is too long.
#[tactic(auto, unfolding(crate::specs::Texts::long_text))]
pub(crate) fn too_long() -> &'static str
    ensures { result.now ≡ texts.long_text }
{
    "objlink: placement 0: TooLong\n"
}

// the name of what is wrong
fn name_of(code: PlaceCode) -> &'static str
    ensures { result.now ≡ texts.code_text code }
{
    match code {
        PlaceCode::BadLine => "BadLine",
        PlaceCode::TooLarge => "TooLarge",
        PlaceCode::BadSection => "BadSection",
        PlaceCode::NoSymbol => "NoSymbol",
        PlaceCode::Repeated => "Repeated",
        PlaceCode::Unplaced => "Unplaced",
        PlaceCode::Misaligned => "Misaligned",
        PlaceCode::PastEnd => "PastEnd",
        PlaceCode::Unnamed => "Unnamed",
        PlaceCode::Defined => "Defined",
    }
}

/// The message for a placement that is at fault: `objlink: placement LINE: CODE` and a newline. Takes
/// memory for the text alone.
#[tactic(auto, unfolding(crate::specs::Texts::placement_text))]
pub(crate) fn placement_message(
    alloc: Global,
    line: u32,
    code: PlaceCode,
) -> Result<Bytes, NoMemory>
    ensures { IfOk result (λ text. text ≡ texts.placement_text line code) }
{
    let name = name_of(code);
    let text = format!(in alloc; "objlink: placement {line}: {name}\n")?;
    Ok(Bytes::from_vec(text.into_bytes()))
}
