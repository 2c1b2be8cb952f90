//! The auxiliary entry after a weak external.
ghost use Rattle.std.specs.Prelude.{◌≡◌, ◌+◌, ◌≤◌, length};
ghost use Rattle.oc_coff.specs.WeakAux.{weak_aux_at};

use oc_base::u32_in;

/// The auxiliary entry after a weak external (PE/COFF, "Auxiliary Format 3: Weak Externals"). It
/// has the size of a symbol table entry; what is after its first eight bytes is unused.
#[derive(Clone, Copy, Debug, PartialEq, Eq)]
pub struct WeakAux {
    /// The symbol table entry of the symbol that stands for it.
    pub TagIndex: u32,
    /// One of the constants `IMAGE_WEAK_EXTERN_SEARCH_*`.
    pub Characteristics: u32,
}

/// The auxiliary entry at `at`, an offset in the file. Constant time.
#[tactic(auto, unfolding(crate::specs::WeakAux::weak_aux_at))]
pub fn weak_aux_at(file: &[u8], at: usize) -> WeakAux
    requires { at + 8 ≤ length file.now }
    ensures { result ≡ weak_aux_at file.now at }
{
    WeakAux {
        TagIndex: u32_in(file, at),
        Characteristics: u32_in(file, at + 4),
    }
}
