//! The string table.
ghost use Rattle.std.specs.Prelude.{◌≡◌, None, Some, MatchOption};
ghost use Rattle.oc_coff.specs.Names as names;
ghost use Rattle.oc_coff.specs.Strings.{IsEnded};

use memchr::memrchr;
use oc_neutral::coff::STRINGS_HEAD;
use oc_shelf::text_at;
use std::marker::Model;

/// A string table, of which it is known where the last text ends. Contracts see its bytes.
#[derive(Drop)]
pub struct Strings<'a> {
    table: &'a [u8],
    // how many bytes there are up to the last NUL, with it
    ended: usize,
}

impl<'a> Model for Strings<'a> {
    ghost use Rattle.std.specs.Prelude.{ℕ, List};
    ghost use Rattle.oc_coff.specs.Strings.{IsEnded};

    ghost Value = { List ℕ };

    ghost view = { λ s. s.table.now };

    ghost invariant = { λ s. IsEnded s.table.now s.ended };
}

// how many bytes there are up to and including the last NUL; linear in those after it
fn ended_at(table: &[u8]) -> usize
    ensures { IsEnded table.now result }
{
    match memrchr(0, table) {
        Some(last) => last + 1,
        None => 0,
    }
}

impl<'a> Strings<'a> {
    /// The string table of these bytes. Linear in what comes after their last NUL.
    pub(crate) fn new(table: &'a [u8]) -> Strings<'a>
        ensures { result ≡ table.now }
    {
        Strings {
            table,
            ended: ended_at(table),
        }
    }

    /// The text at an offset, after the size of the table; `None` exactly where no NUL ends it.
    /// Linear in the text, and constant time where there is none.
    #[tactic(auto, unfolding(crate::specs::Names::string_at))]
    pub(crate) fn text(&self, offset: u32) -> Option<&'a [u8]>
        ensures { MatchOption result (names.string_at self.now offset ≡ None) (λ text. names.string_at self.now offset ≡ Some text.now) }
    {
        let at = offset as usize;
        if at < STRINGS_HEAD {
            return None;
        }
        if self.ended <= at {
            return None;
        }
        text_at(self.table, at, self.table.len())
    }
}
