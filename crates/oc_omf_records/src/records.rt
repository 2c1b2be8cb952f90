//! The entries of an object module, one after another.
ghost use Rattle.std.specs.Prelude.{◌≡◌, ◌+◌, ◌%◌, ◌<◌, ◌≤◌, length, sum, IfOk, OnOk};
ghost use Rattle.oc_omf_records.specs.NextEntry.{entry_at, end_of_entry, is_summed};

use oc_base::{OutOfView, View};
use std::marker::Model;
use thiserror::Error;

/// One entry of an object module (TIS OMF 1.1, "Record Format").
#[derive(Debug, Drop)]
pub struct Entry<'a> {
    /// The type byte.
    pub kind: u8,
    /// The offset of the type byte, in bytes from the start of the module.
    pub place: u64,
    /// What lies between the length field and the checksum byte.
    pub contents: View<'a>,
}

/// Why the bytes at a place are no entry.
#[derive(Clone, Copy, Debug, PartialEq, Eq, Error)]
pub enum RecordFault {
    /// The entry passes the end of the module, or its length is 0.
    #[error("the entry passes the end of the module")]
    Truncated,
    /// The checksum byte is not 0, and the bytes do not sum to 0 modulo 256.
    #[error("the checksum is wrong")]
    BadChecksum,
}

impl From<OutOfView> for RecordFault {
    ghost use Rattle.std.specs.Prelude.{◌≡◌};
    ghost use Rattle.oc_omf_records.specs.declared.records.RecordFault.TheVariants.{Truncated};

    ghost from_gives = { λ _ fault. fault ≡ Truncated };

    fn from(_: OutOfView) -> RecordFault {
        RecordFault::Truncated
    }
}

/// The entries of a module, from the start. Contracts see the bytes and the place that is reached.
#[derive(Debug, Drop)]
pub struct Records<'a> {
    view: View<'a>,
    at: u64,
}

impl<'a> Model for Records<'a> {
    ghost use Rattle.std.specs.Prelude.{◌≤◌, length};
    ghost use Rattle.oc_omf_records.specs.Entries.{Reached};

    ghost Value = { Reached };

    ghost view = { λ r. record { bytes = r.view; place = r.at } };

    ghost invariant = { λ r. r.at ≤ length r.view };
}

impl<'a> Records<'a> {
    ghost use Rattle.std.specs.Prelude.{◌≡◌, ◌<◌, ◌≤◌, length, IfOk, IfSome};
    ghost use Rattle.oc_omf_records.specs.NextEntry.{next_entry, after_next};

    /// The entries of the module in `view`, from its start. Constant time, no memory.
    pub fn new(view: View<'a>) -> Records<'a>
        ensures { result ≡ record { bytes = view.entry; place = 0 } }
    {
        Records { view, at: 0 }
    }

    /// The next entry, and `None` exactly at the end of the module. `Truncated` comes exactly where
    /// the entry passes the end or has the length 0, and else `BadChecksum` exactly where its last
    /// byte is not 0 and its bytes do not sum to 0 modulo 256. What is refused is not passed: the
    /// next call answers the same. Linear in the bytes of the entry, no memory.
    pub fn next(&mut self) -> Result<Option<Entry<'a>>, RecordFault>
        ensures answer { result ≡ next_entry self.old }
        ensures after { self.new ≡ after_next self.old }

        // A walk over the entries goes forward, and ends.
        ensures forward { IfOk result (λ answer. IfSome answer (λ _. self.old.place < self.new.place)) }
        ensures inside { self.new.place ≤ length self.new.bytes }
    {
        if self.at == self.view.len() {
            return Ok(None);
        }
        let entry = entry_at(&self.view, self.at)?;
        self.at += entry.contents.len() + 4;
        Ok(Some(entry))
    }
}

/// The entry at `at`, an offset in bytes. `Truncated` comes exactly where it passes the end or has the
/// length 0, and else `BadChecksum` exactly where its last byte is not 0 and its bytes do not sum to
/// 0 modulo 256. Linear in the bytes of the entry, no memory.
pub fn entry_at<'a>(view: &View<'a>, at: u64) -> Result<Entry<'a>, RecordFault>
    ensures answer { result ≡ entry_at view.now at }
    ensures size { IfOk result (λ entry. at + length entry.contents + 4 ≡ end_of_entry view.now at) }
    ensures inside { OnOk result (end_of_entry view.now at ≤ length view.now) }
{
    let _head = view.sub(at, 3)?;
    let end = view.len();
    prove!(at < end);
    let kind = view.u8_at(at)?;
    let length = view.u16_at(at + 1)?;
    let whole = view.sub(at, 3 + u64::from(length))?;
    if length == 0 {
        return Err(RecordFault::Truncated);
    }
    if !is_summed(whole.bytes()) {
        return Err(RecordFault::BadChecksum);
    }
    let contents = view.sub(at + 3, u64::from(length) - 1)?;
    Ok(Entry {
        kind,
        place: at,
        contents,
    })
}

/// Whether the last byte is 0, or all of them sum to 0 modulo 256.
fn is_summed(entry: &[u8]) -> bool
    requires { 0 < length entry.now }
    ensures { result ≡ is_summed entry.now }
{
    entry[entry.len() - 1] == 0 || sum_of(entry) == 0
}

/// The sum of the bytes modulo 256.
fn sum_of(bytes: &[u8]) -> u8
    ensures { result ≡ sum bytes.now % 256 }
{
    let mut total = 0u8;
    for byte in bytes {
        total = total.wrapping_add(*byte);
    }
    total
}
