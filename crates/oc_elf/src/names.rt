//! Names in string tables.
ghost use Rattle.std.specs.Prelude.{◌≡◌, None, Some, MatchOption, drop, length};
ghost use Rattle.oc_elf.specs.Names.{name_in, table_bytes};

use crate::shdr::Shdr;
use oc_shelf::text_at;

// the bytes of a string table, as far as they are in the file
#[tactic(auto, unfolding(crate::specs::Names::table_bytes))]
fn table_of<'a>(file: &'a [u8], table: &Shdr) -> &'a [u8]
    ensures { result.now ≡ table_bytes file.now table.now }
{
    let len = file.len() as u64;
    if table.sh_offset > len {
        return &[];
    }
    let rest = &file[table.sh_offset as usize..];
    if table.sh_size > rest.len() as u64 {
        return rest;
    }
    &rest[..table.sh_size as usize]
}

/// The name at `at`, an offset in a string table; `None` exactly where there is no NUL at or after
/// it in the table and in the file (gABI, "String Table"). Linear in the name.
pub fn name_in<'a>(file: &'a [u8], table: &Shdr, at: u32) -> Option<&'a [u8]>
    ensures { MatchOption result (name_in file.now table.now at ≡ None) (λ name. name_in file.now table.now at ≡ Some name.now) }
{
    let bytes = table_of(file, table);
    text_at(bytes, at as usize, bytes.len())
}

/// How many bytes are looked through for the name at `at`, an offset in a string table: the name's,
/// or all after `at` where no NUL lies there. Linear in them.
pub fn name_cost(file: &[u8], table: &Shdr, at: u32) -> u64 {
    let bytes = table_of(file, table);
    match text_at(bytes, at as usize, bytes.len()) {
        Some(name) => name.len() as u64,
        None => bytes.len().saturating_sub(at as usize) as u64,
    }
}
