//! The numbers in the fields of relocations (Mach-O reference, "Relocation Data Structures").
use crate::forms::FieldContext;
use oc_neutral::Reloc;
use oc_plans::FieldNumbers;

impl FieldNumbers for FieldContext<'_> {
    ghost use Rattle.oc_macho_write.specs.Relocations.{CanTell, IsNumbering};

    ghost tells = { IsNumbering };

    ghost knows = { CanTell };

    fn number(&self, section: u32, at: u32, reloc: Reloc) -> u64 {
        self.field_number(section, at, reloc)
    }
}
