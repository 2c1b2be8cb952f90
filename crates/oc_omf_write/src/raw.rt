//! The numbers in the fields of relocations (TIS OMF 1.1, "FIXUPP: Fixup Record").
use crate::forms::field_number;
use oc_neutral::{Reloc, Symbol};
use oc_plans::FieldNumbers;

/// The numbers in the fields of relocations in an object with these symbols.
#[derive(Clone, Copy)]
pub(crate) struct Addends<'a> {
    /// Its symbols.
    pub(crate) symbols: &'a [Symbol],
}

impl FieldNumbers for Addends<'_> {
    ghost use Rattle.oc_omf_write.specs.Raws.{CanWrite, IsNumbering};

    ghost tells = { λ x. IsNumbering x.symbols.now };

    ghost knows = { λ x section at r. CanWrite x.symbols.now r };

    fn number(&self, _position: u32, _at: u32, reloc: Reloc) -> u64 {
        field_number(self.symbols, reloc)
    }
}
