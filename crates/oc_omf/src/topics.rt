//! What entries are about.
ghost use Rattle.std.specs.Prelude.{◌≡◌};
ghost use Rattle.oc_omf.specs.Topics as topics;

use crate::constants::{
    COMDEF, EXTDEF, FIXUPP, GRPDEF, LEDATA, LEXTDEF, LIDATA, LNAMES, LPUBDEF, MODEND, PUBDEF,
    SEGDEF,
};
use crate::entries::is_kind;

/// What an entry is about.
#[derive(Clone, Copy, Debug, PartialEq, Eq, Drop)]
pub enum Topic {
    /// Names that other entries have the index of.
    Names,
    /// A segment.
    Segment,
    /// A group of segments.
    Group,
    /// Symbols in a segment, which this module alone sees where that is set.
    Publics(bool),
    /// Names of symbols that are defined elsewhere, or by this module alone where that is set.
    Externals(bool),
    /// Communals.
    Communals,
    /// Data of a segment, which are iterated where that is set.
    Data(bool),
    /// Threads and fixups.
    Fixups,
    /// None of these; it is the end of the module where that is set.
    Others(bool),
}

/// What an entry of a type is about. Constant time.
pub fn topic_of(kind: u8) -> Topic
    ensures { result ≡ topics.topic_of kind }
{
    if is_kind(LNAMES, kind) {
        Topic::Names
    } else if is_kind(SEGDEF, kind) {
        Topic::Segment
    } else if is_kind(GRPDEF, kind) {
        Topic::Group
    } else {
        symbols_topic(kind)
    }
}

// the same, where that is no name, segment or group
fn symbols_topic(kind: u8) -> Topic
    ensures { result ≡ topics.symbols_topic kind }
{
    if is_kind(PUBDEF, kind) || is_kind(LPUBDEF, kind) {
        Topic::Publics(is_kind(LPUBDEF, kind))
    } else if is_kind(EXTDEF, kind) || is_kind(LEXTDEF, kind) {
        Topic::Externals(is_kind(LEXTDEF, kind))
    } else if is_kind(COMDEF, kind) {
        Topic::Communals
    } else {
        data_topic(kind)
    }
}

// the same, where that is no symbol either
fn data_topic(kind: u8) -> Topic
    ensures { result ≡ topics.data_topic kind }
{
    if is_kind(LEDATA, kind) || is_kind(LIDATA, kind) {
        Topic::Data(is_kind(LIDATA, kind))
    } else if is_kind(FIXUPP, kind) {
        Topic::Fixups
    } else {
        Topic::Others(is_kind(MODEND, kind))
    }
}
