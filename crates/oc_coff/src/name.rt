//! Names of up to eight bytes, which lie in their structures.
ghost use Rattle.std.specs.Prelude.{◌≡◌, ◌+◌, ◌≤◌, length, take, drop};

/// The size of a name, in bytes (PE/COFF, "Symbol Name Representation").
pub const NAME_SIZE: usize = 8;

/// The eight bytes from `at`, an offset in the file. Constant time.
pub fn name_at(file: &[u8], at: usize) -> [u8; 8]
    requires { at + 8 ≤ length file.now }
    ensures { result ≡ take 8 (drop at file.now) }
{
    let mut name = [0; NAME_SIZE];
    name.copy_from_slice(&file[at..at + NAME_SIZE]);
    name
}
