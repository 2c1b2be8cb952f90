//! Numbers of TIS OMF 1.1, under the names of its records, and one of our profile. A record type
//! here stands for two types: the odd one above it has offsets, lengths and repeat counts of four
//! bytes where the even one has two.

/// The header of a module (TIS OMF 1.1, "THEADR").
pub const THEADR: u8 = 0x80;
/// A comment (TIS OMF 1.1, "COMENT").
pub const COMENT: u8 = 0x88;
/// The end of a module (TIS OMF 1.1, "MODEND").
pub const MODEND: u8 = 0x8A;
/// Names of symbols that other modules define (TIS OMF 1.1, "EXTDEF").
pub const EXTDEF: u8 = 0x8C;
/// Symbols that other modules see (TIS OMF 1.1, "PUBDEF").
pub const PUBDEF: u8 = 0x90;
/// Line numbers (TIS OMF 1.1, "LINNUM").
pub const LINNUM: u8 = 0x94;
/// Names that other records have the index of (TIS OMF 1.1, "LNAMES").
pub const LNAMES: u8 = 0x96;
/// A segment (TIS OMF 1.1, "SEGDEF").
pub const SEGDEF: u8 = 0x98;
/// A group of segments (TIS OMF 1.1, "GRPDEF").
pub const GRPDEF: u8 = 0x9A;
/// Threads and fixups (TIS OMF 1.1, "FIXUPP").
pub const FIXUPP: u8 = 0x9C;
/// Plain data (TIS OMF 1.1, "LEDATA").
pub const LEDATA: u8 = 0xA0;
/// Iterated data (TIS OMF 1.1, "LIDATA").
pub const LIDATA: u8 = 0xA2;
/// Communals (TIS OMF 1.1, "COMDEF").
pub const COMDEF: u8 = 0xB0;
/// Names of symbols that this module alone defines (TIS OMF 1.1, "LEXTDEF").
pub const LEXTDEF: u8 = 0xB4;
/// Symbols that this module alone sees (TIS OMF 1.1, "LPUBDEF").
pub const LPUBDEF: u8 = 0xB6;

/// The class of a comment on weak externals (TIS OMF 1.1, "COMENT").
pub const COMENT_WKEXT: u8 = 0xA8;
/// The class of a comment on lazy externals (TIS OMF 1.1, "COMENT").
pub const COMENT_LZEXT: u8 = 0xA9;
/// The mark of a segment index in a group (TIS OMF 1.1, "GRPDEF").
pub const SEGMENT_INDEX: u8 = 0xFF;
/// The type byte of a near communal (TIS OMF 1.1, "COMDEF").
pub const NEAR: u8 = 0x62;
/// The greatest length of a communal that fits in one byte (TIS OMF 1.1, "COMDEF").
pub const MOST_SHORT_LENGTH: u8 = 0x80;
/// The location type of a 32-bit offset (TIS OMF 1.1, "FIXUPP").
pub const OFFSET_32: u8 = 9;

/// The combination of a segment that is joined with others of its name (TIS OMF 1.1, "SEGDEF").
pub const COMBINE_PUBLIC: u8 = 2;
/// A length of two bytes follows (TIS OMF 1.1, "COMDEF").
pub const LENGTH_OF_2: u8 = 0x81;
/// A length of three bytes follows (TIS OMF 1.1, "COMDEF").
pub const LENGTH_OF_3: u8 = 0x84;
/// A length of four bytes follows (TIS OMF 1.1, "COMDEF").
pub const LENGTH_OF_4: u8 = 0x88;
/// The method of a target that is a segment (TIS OMF 1.1, "FIXUPP").
pub const METHOD_SEGMENT: u8 = 0;
/// The method of a frame that is a group (TIS OMF 1.1, "FIXUPP").
pub const METHOD_GROUP: u8 = 1;
/// The method of a target that is an external (TIS OMF 1.1, "FIXUPP").
pub const METHOD_EXTERNAL: u8 = 2;
/// The method of a frame that is that of the target (TIS OMF 1.1, "FIXUPP").
pub const FRAME_OF_TARGET: u8 = 5;

/// How many bytes of an entry come before its contents (TIS OMF 1.1, "Record Format").
pub const ENTRY_HEAD: u64 = 3;
/// An entry has at most so many bytes of names, or of data (our profile).
pub const MOST_ENTRY_BYTES: u64 = 1024;
