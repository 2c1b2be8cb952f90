//! Relocation entries.
ghost use Rattle.oc_coff.specs.declared.relocation.TheConstants.{RELOCATION_SIZE};
ghost use Rattle.std.specs.Prelude.{◌≡◌, ◌+◌, ◌≤◌, length};
ghost use Rattle.oc_coff.specs.Relocation.{relocation_at};

use oc_base::{u16_in, u32_in};

/// The size of a relocation entry, in bytes (PE/COFF, "COFF Relocations").
pub const RELOCATION_SIZE: usize = 10;

/// A relocation entry (PE/COFF, "COFF Relocations").
#[derive(Clone, Copy, Debug, PartialEq, Eq)]
pub struct Relocation {
    /// Where the field begins in its section, in bytes.
    pub VirtualAddress: u32,
    /// The symbol table entry of the symbol.
    pub SymbolTableIndex: u32,
    /// One of the constants `IMAGE_REL_I386_*`.
    pub Type: u16,
}

/// The relocation entry at `at`, an offset in the file. Constant time.
#[tactic(auto, unfolding(crate::specs::Relocation::relocation_at))]
pub fn relocation_at(file: &[u8], at: usize) -> Relocation
    requires { at + RELOCATION_SIZE ≤ length file.now }
    ensures { result ≡ relocation_at file.now at }
{
    Relocation {
        VirtualAddress: u32_in(file, at),
        SymbolTableIndex: u32_in(file, at + 4),
        Type: u16_in(file, at + 8),
    }
}
