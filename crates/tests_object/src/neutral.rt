//! The neutral object: its Builder, its lists of relocations, and repeated names.
mod fields;
mod limits;
mod relocs;
mod repeats;
mod symbols;
