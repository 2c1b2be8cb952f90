//! Kinds of sections.
ghost use Rattle.std.specs.Prelude.{◌≡◌, ◌≤◌, not};
ghost use Rattle.oc_neutral.specs.Elf.Kinds as kinds;
ghost use Rattle.oc_neutral.specs.KindRules.{has};

use oc_neutral::Kind;
use oc_neutral::elf::{
    SHF_ALLOC, SHF_EXECINSTR, SHF_WRITE, SHT_FINI_ARRAY, SHT_INIT_ARRAY, SHT_NOBITS, SHT_NOTE,
    SHT_PROGBITS, SHT_X86_64_UNWIND,
};

/// Whether a flag, which is a power of two, is set. Constant time.
pub fn has(flags: u64, flag: u64) -> bool
    requires { 1 ≤ flag }
    ensures { result ≡ has flags flag }
{
    flags / flag % 2 == 1
}

/// Whether a section of that type is carried. Constant time.
pub fn is_carried_type(sh_type: u32) -> bool
    ensures { result ≡ kinds.is_carried_type sh_type }
{
    sh_type == SHT_PROGBITS
        || sh_type == SHT_NOTE
        || sh_type == SHT_NOBITS
        || sh_type == SHT_INIT_ARRAY
        || sh_type == SHT_FINI_ARRAY
        || sh_type == SHT_X86_64_UNWIND
}

// whether the name is one of unwind tables
fn is_unwind_name(name: &[u8]) -> bool
    ensures { result ≡ kinds.is_unwind_name name.now }
{
    name.starts_with(b".eh_frame") || name.starts_with(b".gcc_except_table")
}

// whether the name is one of debugging information
fn is_debug_name(name: &[u8]) -> bool
    ensures { result ≡ kinds.is_debug_name name.now }
{
    name.starts_with(b".debug") || name.starts_with(b".stab")
}

/// The kind of a carried section with this name, type and flags. Constant time.
#[tactic(auto, unfolding(oc_neutral::specs::Elf::Kinds::elf_kind))]
pub fn kind_by(name: &[u8], sh_type: u32, sh_flags: u64) -> Kind
    ensures { result ≡ kinds.elf_kind name.now sh_type sh_flags }
{
    if is_unwind_name(name) || sh_type == SHT_X86_64_UNWIND {
        return Kind::Exception;
    }
    if !has(sh_flags, SHF_ALLOC) {
        return if is_debug_name(name) {
            Kind::Debug
        } else {
            Kind::Note
        };
    }
    match sh_type {
        SHT_NOTE => Kind::Note,
        SHT_INIT_ARRAY => Kind::Init,
        SHT_FINI_ARRAY => Kind::Fini,
        SHT_NOBITS => Kind::Zero,
        _ => {
            if has(sh_flags, SHF_EXECINSTR) {
                Kind::Code
            } else if has(sh_flags, SHF_WRITE) {
                Kind::Data
            } else {
                Kind::ReadOnly
            }
        }
    }
}
