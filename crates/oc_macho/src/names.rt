//! Names of sections and segments, which lie in their structures.
ghost use Rattle.std.specs.Prelude.{◌≡◌, ◌+◌, ◌≤◌, length, take, drop};
ghost use Rattle.oc_macho.specs.Structures as structures;

/// The size of a name, in bytes (Mach-O reference, "section").
pub const NAME_SIZE: usize = 16;

/// The sixteen bytes from `at`, an offset in the file. Constant time.
pub fn name_at(file: &[u8], at: usize) -> [u8; 16]
    requires { at + 16 ≤ length file.now }
    ensures { result ≡ take 16 (drop at file.now) }
{
    let mut name = [0; NAME_SIZE];
    name.copy_from_slice(&file[at..at + NAME_SIZE]);
    name
}

/// A name of up to 16 bytes, padded with NULs. Constant time.
pub fn padded(name: &[u8]) -> [u8; NAME_SIZE]
    requires { length name.now ≤ 16 }
    ensures { result ≡ structures.padded name.now }
{
    let mut padded = [0; NAME_SIZE];
    padded[..name.len()].copy_from_slice(name);
    padded
}
