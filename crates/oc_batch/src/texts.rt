//! The texts that only a batch reports.
ghost use Rattle.std.specs.Prelude.{◌≡◌};
ghost use Rattle.oc_batch.specs.Texts as texts;

/// The text for words that are not one name.
#[tactic(auto, unfolding(crate::specs::Texts::words_text))]
pub(crate) fn bad_words() -> &'static str
    ensures { result.now ≡ texts.words_text }
{
    "objbatch: words: BadWords\n"
}

/// The text for a list that is not UTF-8.
#[tactic(auto, unfolding(crate::specs::Texts::list_text))]
pub(crate) fn not_text() -> &'static str
    ensures { result.now ≡ texts.list_text }
{
    "objbatch: list: NotText\n"
}
