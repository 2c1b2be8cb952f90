//! OMF object modules as TIS OMF 1.1 lays them out, for 32-bit segments: the numbers, the structures
//! both ways, the view of a module, whose header is judged, and the rules by which it is read.
#![tactic(auto)]

mod bytes;
mod constants;
mod contents;
mod cursor;
mod cut;
mod data;
mod entries;
mod header_stage;
mod kind;
mod laws;
mod module;
mod reading;
mod structures;
mod symbols;
mod threads;
mod topics;

pub use bytes::{put_communal, put_data, put_external, put_fixup, put_public, put_segment};
pub use constants::{
    COMBINE_PUBLIC, COMDEF, ENTRY_HEAD, EXTDEF, FIXUPP, FRAME_OF_TARGET, GRPDEF, LEDATA,
    LENGTH_OF_2, LENGTH_OF_3, LENGTH_OF_4, LEXTDEF, LIDATA, LNAMES, LPUBDEF, METHOD_EXTERNAL,
    METHOD_GROUP, METHOD_SEGMENT, MODEND, MOST_ENTRY_BYTES, MOST_SHORT_LENGTH, NEAR, OFFSET_32,
    PUBDEF, SEGDEF, SEGMENT_INDEX, THEADR,
};
pub use contents::{Contents, ROOM};
pub use cursor::{Reading, read_index, read_long, read_name};
pub use cut::Cut;
pub use data::{Data, read_data};
pub use entries::{is_kind, is_wide};
pub use kind::kind_of;
pub use laws::omf_is_dialect;
pub use module::{Module, read_module};
pub use reading::{read_base, read_head, read_member, read_segment, read_subrecord};
pub use structures::{
    Communal, DataHead, Datum, Fixup, Method, PublicBase, Segment, Subrecord, Thread,
};
pub use symbols::{Public, read_communal, read_external, read_public};
pub use threads::Threads;
pub use topics::{Topic, topic_of};
