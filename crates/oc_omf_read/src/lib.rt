//! Reading OMF object modules that were judged: the sections, symbols and fields of what they hold.
#![tactic(auto)]

mod added_relocs;
mod bindings;
mod built_sections;
mod built_symbols;
mod class;
mod contents;
mod declarations;
mod fields;
mod fix;
mod fixes;
mod known;
mod laws;
mod mentioned;
mod pieces;
mod reader;
mod searched;
mod started;
mod weight;

pub use class::EntryClass;
pub use declarations::DeclarationKind;
pub use fix::{Fix, FixupFrame, reloc_of};
pub use laws::{clean_is_shown, starts_are_well};
pub use reader::OmfReader;
