//! The words of the command.
ghost use Rattle.std.specs.Prelude.{◌≡◌, MatchOption, None, Some, bytes_eq, codes};
ghost use Rattle.oc_lister.specs.Words.{asked_by, listing_named};

use oc_listings::Listing;
use oc_words::Words;

// the listing that a word names
fn listing_named(word: &str) -> Option<Listing>
    ensures { result ≡ listing_named word.now }
{
    if word == "-dh" {
        Some(Listing::Header)
    } else if word == "-dn" {
        Some(Listing::Sections)
    } else if word == "-dr" {
        Some(Listing::Relocations)
    } else {
        None
    }
}

/// The listing and the name of the file that the words ask for; `None` exactly where they are not one
/// of `-dh`, `-dn` and `-dr` and one name after it. Constant time, no memory.
pub(crate) fn asked(words: &Words) -> Option<(Listing, &str)>
    ensures { MatchOption result (asked_by words.now ≡ None)
        (λ x. asked_by words.now ≡ Some (x.0, x.1.now)) }
{
    if words.count() != 2 {
        return None;
    }
    let listing = listing_named(words.word(0))?;
    Some((listing, words.word(1)))
}
