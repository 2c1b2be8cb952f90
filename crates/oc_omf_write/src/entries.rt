//! The entries of a file (TIS OMF 1.1, "Record Formats").
ghost use Rattle.std.specs.Prelude.{◌≡◌};
ghost use Rattle.oc_omf_write.specs.Entries.{type_of};

use oc_omf::{COMDEF, EXTDEF, FIXUPP, GRPDEF, LEDATA, LNAMES, MODEND, PUBDEF, SEGDEF, THEADR};

/// An entry, by positions in the object: of a section or a symbol, and of the first and past the last of
/// its names or bytes.
#[derive(Clone, Copy, Debug)]
pub(crate) enum Entry {
    /// The header of the module.
    Header,
    /// Names.
    Names {
        /// The first.
        from: u32,
        /// Past the last.
        to: u32,
    },
    /// The segment of a section.
    Segment(u32),
    /// The group FLAT.
    Group,
    /// A symbol that is defined elsewhere.
    External(u32),
    /// A communal.
    Communal(u32),
    /// A symbol that is defined here.
    Public(u32),
    /// Bytes of a section.
    Data {
        /// The section.
        section: u32,
        /// The first byte.
        from: u32,
        /// Past the last.
        to: u32,
    },
    /// The fixups of such bytes.
    Fixups {
        /// The section.
        section: u32,
        /// The first byte.
        from: u32,
        /// Past the last.
        to: u32,
    },
    /// The end of the module.
    End,
}

impl Entry {
    /// The type of the entry; where offsets and lengths have four bytes, the odd one of the two. Constant
    /// time.
    pub(crate) fn record_type(self) -> u8
        ensures { result ≡ type_of self }
    {
        match self {
            Entry::Header => THEADR,
            Entry::Names { .. } => LNAMES,
            Entry::Segment(_) => SEGDEF + 1,
            Entry::Group => GRPDEF,
            Entry::External(_) => EXTDEF,
            Entry::Communal(_) => COMDEF,
            Entry::Public(_) => PUBDEF + 1,
            Entry::Data { .. } => LEDATA + 1,
            Entry::Fixups { .. } => FIXUPP + 1,
            Entry::End => MODEND,
        }
    }
}
