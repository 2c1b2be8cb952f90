//! The structures in entries that have no names.

/// A segment (TIS OMF 1.1, "SEGDEF: Segment Definition Record").
#[derive(Clone, Copy, Debug, PartialEq, Eq, Drop)]
pub struct Segment {
    /// Whether it lies in an entry of the odd type.
    pub wide: bool,
    /// The alignment, the combination, and whether it is big and has 32-bit offsets.
    pub attributes: u8,
    /// How many bytes it has, where it is not big.
    pub length: u32,
    /// The index of its name.
    pub name: u16,
    /// The index of its class.
    pub class: u16,
    /// The index of its overlay.
    pub overlay: u16,
}

/// Where the symbols of an entry lie (TIS OMF 1.1, "PUBDEF: Public Names Definition Record").
#[derive(Clone, Copy, Debug, PartialEq, Eq, Drop)]
pub struct PublicBase {
    /// The index of a group, or 0.
    pub group: u16,
    /// The index of a segment, or 0.
    pub segment: u16,
}

/// What an entry gives of a communal besides its name (TIS OMF 1.1, "COMDEF: Communal Names
/// Definition Record").
#[derive(Clone, Copy, Debug, PartialEq, Eq, Drop)]
pub struct Communal {
    /// Its type byte.
    pub kind: u8,
    /// The first byte of its length, which gives the form in which it is written.
    pub form: u8,
    /// The length, in bytes.
    pub length: u32,
}

/// How a frame or a target is given, and the index of what it is (TIS OMF 1.1, "FIXUPP: Fixup
/// Record").
#[derive(Clone, Copy, Debug, PartialEq, Eq, Drop)]
pub struct Method {
    /// The number of the method.
    pub number: u8,
    /// The index, 0 where the method has none.
    pub index: u16,
}

/// Where data lie (TIS OMF 1.1, "LEDATA: Logical Enumerated Data Record").
#[derive(Clone, Copy, Debug, PartialEq, Eq, Drop)]
pub struct DataHead {
    /// The index of their segment.
    pub segment: u16,
    /// Their offset in it, in bytes.
    pub offset: u32,
}

/// A frame or a target of a fixup.
#[derive(Clone, Copy, Debug, PartialEq, Eq, Drop)]
pub enum Datum {
    /// It is given in the fixup.
    Explicit(Method),
    /// It is that of the thread of this number.
    Thread(u8),
}

/// A default for later fixups (TIS OMF 1.1, "FIXUPP", THREAD subrecord).
#[derive(Clone, Copy, Debug, PartialEq, Eq, Drop)]
pub struct Thread {
    /// Whether it is a frame, and not a target.
    pub frame: bool,
    /// Its number.
    pub number: u8,
    /// What fixups with this thread have.
    pub method: Method,
}

/// A field that is relocated (TIS OMF 1.1, "FIXUPP", FIXUP subrecord).
#[derive(Clone, Copy, Debug, PartialEq, Eq, Drop)]
pub struct Fixup {
    /// Whether it is segment-relative, and not self-relative.
    pub segment_relative: bool,
    /// The type of what is fixed up.
    pub location: u8,
    /// Where that lies in the data of the entry before, an offset in bytes as they are encoded.
    pub offset: u16,
    /// From where the address of the target counts.
    pub frame: Datum,
    /// What is addressed.
    pub target: Datum,
    /// What is added to the address, 0 where nothing is.
    pub displacement: u32,
}

/// What a FIXUPP entry has, one after another.
#[derive(Clone, Copy, Debug, PartialEq, Eq, Drop)]
pub enum Subrecord {
    /// A thread.
    Thread(Thread),
    /// A fixup.
    Fixup(Fixup),
}
