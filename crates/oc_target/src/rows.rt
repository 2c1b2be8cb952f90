//! The rows of a relocation table: what a type of relocation means where it is written.

use oc_neutral::{Base, Check, Hint, Less, Width};

/// What a type of relocation takes from the base. Which section it takes is given by the entry and
/// not by the type.
#[derive(Clone, Copy, PartialEq, Eq)]
pub enum Taken {
    /// Nothing.
    Zero,
    /// The place of the field.
    Place,
    /// The base of the global offset table.
    GotBase,
    /// The base of the image.
    ImageBase,
    /// The home of the target.
    Home,
    /// A section.
    Section,
}

/// A type of relocation that is written.
#[derive(Clone, Copy)]
pub struct Row {
    /// Its number in an entry; of a pair, the number in the first of the two.
    pub number: u16,
    /// Of a pair, the number in the second.
    pub second: Option<u16>,
    /// How many bytes its field has.
    pub width: Width,
    /// Which values fit the field.
    pub check: Check,
    /// What the value begins with.
    pub base: Base,
    /// What is taken from it.
    pub taken: Taken,
    /// How an instruction uses the field.
    pub hint: Hint,
    /// A self-relative value is taken from so many bytes after the field's place.
    pub behind: u8,
}
