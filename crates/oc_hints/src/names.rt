//! Names and words by which differences are known.
ghost use Rattle.std.specs.Prelude.{◌≡◌, ◌≤◌, ◌||◌, drop, length};
ghost use Rattle.oc_neutral.specs.KindRules.{begins};
ghost use Rattle.oc_hints.specs.Names as names;

// whether the text begins at a byte
fn begins_at(bytes: &[u8], at: usize, text: &[u8]) -> bool
    requires { at ≤ length bytes.now }
    ensures { result ≡ begins (drop at bytes.now) text.now }
{
    bytes[at..].starts_with(text)
}

/// Whether the text is in the bytes. Time is that of a comparison at each byte, no memory.
pub(crate) fn holds(text: &[u8], bytes: &[u8]) -> bool
    ensures { result ≡ names.holds text.now bytes.now }
{
    for at in 0..bytes.len() {
        if begins_at(bytes, at, text) {
            return true;
        }
    }
    text.is_empty()
}

/// Whether the name has a version for a linker of ELF. Linear.
pub(crate) fn has_version(name: &[u8]) -> bool
    ensures { result ≡ names.has_version name.now }
{
    holds(b"@@", name)
}

/// Whether the script of GNU ld gives the name a value. Constant time.
pub(crate) fn is_set_by_linker(name: &[u8]) -> bool
    ensures { result ≡ names.is_set_by_linker name.now }
{
    name == b"_end".as_slice() || name == b"_edata".as_slice() || name == b"__bss_start".as_slice()
}

/// The name without the underscores before it. Linear in them, no memory.
pub(crate) fn bare(name: &[u8]) -> &[u8]
    ensures { result.now ≡ names.bare name.now }
{
    for at in 0..name.len() {
        if name[at] != b'_' {
            return &name[at..];
        }
    }
    &[]
}

// whether a name without underscores is one of what finds a handler or throws
fn is_bare_thrower(name: &[u8]) -> bool
    ensures { result ≡ names.is_bare_thrower name.now }
{
    name.starts_with(b"gxx_personality_")
        || name.starts_with(b"gcc_personality_")
        || name.starts_with(b"cxa_throw")
        || name.starts_with(b"cxa_rethrow")
        || name.starts_with(b"Unwind_Resume")
        || name.starts_with(b"CxxFrameHandler")
        || name.starts_with(b"CxxThrowException")
}

/// Whether the name is one of what finds a handler or throws. Linear in the underscores before it.
pub(crate) fn is_thrower(name: &[u8]) -> bool
    ensures { result ≡ names.is_bare_thrower (names.bare name.now) }
{
    is_bare_thrower(bare(name))
}

/// Whether the name says that there is no code but what gcc makes at link time. Constant time.
pub(crate) fn is_slim(name: &[u8]) -> bool
    ensures { result ≡ names.is_slim name.now }
{
    name == b"__gnu_lto_slim".as_slice()
}

/// Whether the name is the mark that all handlers are known. Constant time.
pub(crate) fn is_feature_mark(name: &[u8]) -> bool
    ensures { result ≡ names.is_feature_mark name.now }
{
    name == b"@feat.00".as_slice()
}

/// Whether a section of ELF of this name has functions for start-up or shut-down. Constant time.
pub(crate) fn is_elf_start_up(name: &[u8]) -> bool
    ensures { result ≡ names.is_elf_start_up name.now }
{
    name.starts_with(b".ctors")
        || name.starts_with(b".dtors")
        || name.starts_with(b".init_array")
        || name.starts_with(b".fini_array")
        || name.starts_with(b".preinit_array")
}

/// Whether a section of COFF of this name has them. Constant time.
pub(crate) fn is_coff_start_up(name: &[u8]) -> bool
    ensures { result ≡ names.is_coff_start_up name.now }
{
    name.starts_with(b".ctors")
        || name.starts_with(b".dtors")
        || name.starts_with(b".CRT$XI")
        || name.starts_with(b".CRT$XP")
}

/// Whether a section of Mach-O of this name has them. Constant time.
pub(crate) fn is_mach_start_up(name: &[u8]) -> bool
    ensures { result ≡ names.is_mach_start_up name.now }
{
    name == b"__TEXT,__constructor".as_slice() || name == b"__TEXT,__destructor".as_slice()
}

/// Whether a section of this name has directives for the linker. Constant time.
pub(crate) fn is_directives(name: &[u8]) -> bool
    ensures { result ≡ names.is_directives name.now }
{
    name == b".drectve".as_slice()
}

/// Whether a directive changes what is linked. Linear.
pub(crate) fn has_orders(text: &[u8]) -> bool
    ensures { result ≡ names.has_orders text.now }
{
    holds(b"export:", text)
        || holds(b"EXPORT:", text)
        || holds(b"include:", text)
        || holds(b"INCLUDE:", text)
        || holds(b"alternatename:", text)
        || holds(b"ALTERNATENAME:", text)
        || holds(b"merge:", text)
        || holds(b"MERGE:", text)
}

/// Whether a directive gives a common its alignment. Linear.
pub(crate) fn has_alignments(text: &[u8]) -> bool
    ensures { result ≡ names.has_alignments text.now }
{
    holds(b"aligncomm:", text)
}
