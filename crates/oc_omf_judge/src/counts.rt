//! How many segments, groups and externals the entries so far define.
ghost use Rattle.std.specs.Prelude.{◌≡◌, ◌+◌, ◌&&◌, ℕ, Bool, min, nat_le, length};
ghost use Rattle.oc_omf.specs.Cursor.{each_read};
ghost use Rattle.oc_omf.specs.Entries.{all_read};
ghost use Rattle.oc_omf.specs.RelocationFaults.{is_datum_there};
ghost use Rattle.oc_omf.specs.Tables.{Tables, is_there};
ghost use Rattle.oc_omf_judge.specs.Counts as specs;

use oc_base::View;
use oc_omf::{Datum, Method, read_communal, read_external};

/// More than an index can be.
const MOST: u32 = 65_536;

/// How many segments, groups and externals there are, or 65,536 where there are more: no index goes
/// so far.
#[derive(Clone, Copy, Debug, PartialEq, Eq, Drop)]
pub(crate) struct Counts {
    /// Of segments.
    pub(crate) segments: u32,
    /// Of groups.
    pub(crate) groups: u32,
    /// Of externals and communals.
    pub(crate) externals: u32,
}

/// One more. Constant time.
pub(crate) fn one_more(count: u32) -> u32
    ensures { result ≡ min (count + 1) 65536 }
{
    count.saturating_add(1).min(MOST)
}

// whether a thing of so many has the index
fn is_indexed(count: u32, index: u16) -> bool
    ensures { (n : ℕ) → count ≡ min n 65536 → result ≡ (nat_le 1 index && nat_le index n) }
{
    1 <= index && u32::from(index) <= count
}

/// Whether what a method names by its index exists. Constant time.
pub(crate) fn is_there(counts: Counts, method: Method) -> bool
    ensures { (t : Tables) → specs.AreCounts t counts → result ≡ is_there t method }
{
    match method.number {
        0 => is_indexed(counts.segments, method.index),
        1 => is_indexed(counts.groups, method.index),
        2 => is_indexed(counts.externals, method.index),
        3.. => true,
    }
}

/// The same of a frame or a target; of one by a thread, the thread is in force. Constant time.
pub(crate) fn is_datum_there(counts: Counts, datum: Datum, found: Option<Method>) -> bool
    ensures { (t : Tables) → specs.AreCounts t counts → result ≡ is_datum_there t datum found }
{
    match datum {
        Datum::Explicit(method) => is_there(counts, method),
        Datum::Thread(_number) => found.is_some(),
    }
}

// the place after the external at `at`, or after the communal; none where it is cut
fn end_of_external(contents: &View<'_>, communals: bool, at: u64) -> Option<u64>
    ensures { (local : Bool) → result ≡ specs.end_of (specs.external_by communals local contents.now at) }
{
    if communals {
        return match read_communal(contents, at) {
            Ok((_communal, after)) => Some(after),
            Err(_) => None,
        };
    }
    match read_external(contents, at) {
        Ok((_name, after)) => Some(after),
        Err(_) => None,
    }
}

/// So many externals, and those in the contents of an entry, or the communals, up to the first that
/// is cut. Linear in the contents.
pub(crate) fn with_externals(contents: &View<'_>, communals: bool, count: u32) -> u32
    ensures { (local : Bool) (n : ℕ) → count ≡ min n 65536
        → result ≡ min (n + length (all_read (each_read (specs.external_by communals local) contents.now 0))) 65536 }
{
    let mut count = count;
    let mut at = 0;
    while at < contents.len() {
        match end_of_external(contents, communals, at) {
            Some(after) => {
                count = one_more(count);
                at = after;
            }
            None => return count,
        }
    }
    count
}
