//! The most that is read of one file.
ghost use Rattle.std.specs.Prelude.{◌≡◌, ◌+◌, ◌^◌, ◌≤◌, ◌↔◌, IfOk, IsOk};

use oc_base::NoMemory;

/// The most that the names of an object weigh, as its file gives them: 1 GiB.
const MOST_NAMES: u64 = 1 << 30;

/// What a name weighs beside its bytes: what holds it takes more memory than that.
const HOLDER: u64 = 64;

/// The most relocation entries that the tables of a file have together, each counted: a file of at
/// most 2^26 bytes has no room for more of eight bytes.
const MOST_ENTRIES: u64 = 1 << 23;

/// The most relocated fields of a module, each counted: a field has four bytes, and a fixup three at
/// least, so a file of at most 2^26 bytes has no room for more but by data that are repeated.
const MOST_FIELDS: u64 = (1 << 26) / 7;

/// The most bytes that a text that shows an object has, up to its last name: half a GiB.
const MOST_TEXT: u64 = 1 << 29;

// a sum, as long as it is at most `most`
fn sum_upto(most: u64, before: u64, more: u64) -> Result<u64, NoMemory>
    ensures sum { IfOk result (λ sum. sum ≡ before + more) }
    ensures most { IsOk result ↔ before + more ≤ most }
{
    match before.checked_add(more) {
        Some(sum) if sum <= most => Ok(sum),
        _ => Err(NoMemory),
    }
}

/// What names weigh with one more of so many bytes, each 64 more than its bytes.
///
/// `NoMemory` exactly where that is above 1 GiB. All names of a file are weighed, also of what is then
/// dropped or renamed; so a file that could be written may be above it, though none is known that a tool
/// made. Constant time.
pub fn with_name(weight: u64, bytes: u64) -> Result<u64, NoMemory>
    ensures sum { IfOk result (λ sum. sum ≡ weight + 64 + bytes) }
    ensures most { IsOk result ↔ weight + 64 + bytes ≤ 2 ^ 30 }
{
    let held = sum_upto(MOST_NAMES, weight, HOLDER)?;
    sum_upto(MOST_NAMES, held, bytes)
}

/// What tables of relocations weigh with one more of so many entries.
///
/// `NoMemory` exactly where that is above 2^23 entries: more come only of tables that share bytes of
/// the file. Constant time.
pub fn with_entries(weight: u64, entries: u64) -> Result<u64, NoMemory>
    ensures sum { IfOk result (λ sum. sum ≡ weight + entries) }
    ensures most { IsOk result ↔ weight + entries ≤ 2 ^ 23 }
{
    sum_upto(MOST_ENTRIES, weight, entries)
}

/// How many relocated fields a module has with so many more.
///
/// `NoMemory` exactly where that is above 9,586,980: more come only of data that are repeated. Constant
/// time.
pub fn with_fields(fields: u64, more: u64) -> Result<u64, NoMemory>
    ensures sum { IfOk result (λ sum. sum ≡ fields + more) }
    ensures most { IsOk result ↔ fields + more ≤ 9586980 }
{
    sum_upto(MOST_FIELDS, fields, more)
}

/// How many bytes a text has with so many more.
///
/// `NoMemory` exactly where that is above 2^29 bytes: what shows an object is made in memory, beside the
/// object. Constant time.
pub fn with_text(text: u64, bytes: u64) -> Result<u64, NoMemory>
    ensures sum { IfOk result (λ sum. sum ≡ text + bytes) }
    ensures most { IsOk result ↔ text + bytes ≤ 2 ^ 29 }
{
    sum_upto(MOST_TEXT, text, bytes)
}
