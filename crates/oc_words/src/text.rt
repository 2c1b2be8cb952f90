//! Texts that are cut.
ghost use Rattle.std.specs.Prelude.{◌≡◌, MatchOption, Some, None};
ghost use Rattle.oc_words.specs.Texts as texts;

/// What comes after the prefix; `None` exactly where the text does not begin with it. Linear in the
/// prefix, no memory.
pub(crate) fn behind<'t>(prefix: &str, text: &'t str) -> Option<&'t str>
    ensures { MatchOption result (texts.behind prefix.now text.now ≡ None)
        (λ rest. texts.behind prefix.now text.now ≡ Some rest.now) }
{
    text.strip_prefix(prefix)
}

/// What comes before and after the first colon; `None` exactly where the text has none. Linear, no
/// memory.
pub(crate) fn cut(text: &str) -> Option<(&str, &str)>
    ensures { MatchOption result (texts.cut text.now ≡ None)
        (λ parts. texts.cut text.now ≡ Some (record { before = parts.0.now; after = parts.1.now })) }
{
    text.split_once(':')
}
