//! Windows of the tables of a file, and of its string table.
ghost use Rattle.std.specs.Prelude.{◌≡◌, ◌-◌, ◌^◌, ◌<◌, ◌≤◌, length, map};
ghost use Rattle.oc_outside.specs.Windows.{IsFilled};
ghost use Rattle.oc_shelf.specs.Writing.Parts.{table_of, HaveSize, IsFilledOn};
ghost use Rattle.oc_macho.specs.SectionHeader.{section_header_size};
ghost use Rattle.oc_macho.specs.MachHeader.{address_size};
ghost use Rattle.oc_macho_file.specs.Layout.{filled, strings_of};
ghost use Rattle.oc_macho.specs.Structures.{nlist_bytes, relocation_bytes, section_bytes};

use crate::strings::{STRINGS_HEAD, padding};
use crate::windows::pair_window;
use oc_base::Word;
use oc_macho::{
    Nlist, RELOCATION_INFO_SIZE, RelocationInfo, SectionHeader, nlist_size, pack_nlist,
    pack_relocation, pack_section_names, pack_section_numbers, section_header_size,
};
use oc_shelf::{WritesRows, rows_window, zero_window};
use oc_strings::Table;

/// The entries of the symbol table.
#[derive(Drop)]
struct NlistRows<'a> {
    word: Word,
    nlists: &'a [Nlist],
}

impl WritesRows for NlistRows<'_> {
    ghost use Rattle.std.specs.Prelude.{map};
    ghost use Rattle.oc_macho.specs.Structures.{nlist_bytes};

    ghost rows = { λ t. map (nlist_bytes t.word) t.nlists.now };

    fn count(&self) -> usize {
        self.nlists.len()
    }

    fn size(&self) -> usize {
        nlist_size(self.word) as usize
    }

    fn put_row(&self, k: usize, out: &mut [u8]) {
        out.copy_from_slice(pack_nlist(self.word, &self.nlists[k]).as_slice());
    }
}

/// A window of the symbol table, as `copy_window` gives it. The time is that of the entries that meet
/// the window.
pub(crate) fn nlists_window(word: Word, nlists: &[Nlist], from: u64, out: &mut [u8]) -> usize
    requires { length (table_of (map (nlist_bytes word) nlists.now)) < 2 ^ 64 }
    ensures { IsFilled (table_of (map (nlist_bytes word) nlists.now)) from out.old out.new result }
{
    rows_window(&NlistRows { word, nlists }, from, out)
}

/// The relocation entries of a section.
#[derive(Drop)]
struct RelocationRows<'a> {
    entries: &'a [RelocationInfo],
}

impl WritesRows for RelocationRows<'_> {
    ghost use Rattle.std.specs.Prelude.{map};
    ghost use Rattle.oc_macho.specs.Structures.{relocation_bytes};

    ghost rows = { λ t. map relocation_bytes t.entries.now };

    fn count(&self) -> usize {
        self.entries.len()
    }

    fn size(&self) -> usize {
        RELOCATION_INFO_SIZE
    }

    fn put_row(&self, k: usize, out: &mut [u8]) {
        out.copy_from_slice(pack_relocation(self.entries[k]).as_slice());
    }
}

/// A window of the relocation entries of a section, as `copy_window` gives it. The time is that of
/// the entries that meet the window.
pub(crate) fn relocations_window(entries: &[RelocationInfo], from: u64, out: &mut [u8]) -> usize
    requires { length (table_of (map relocation_bytes entries.now)) < 2 ^ 64 }
    ensures { IsFilled (table_of (map relocation_bytes entries.now)) from out.old out.new result }
{
    rows_window(&RelocationRows { entries }, from, out)
}

// a window of a section header
fn header_window(word: Word, header: &SectionHeader, from: u64, out: &mut [u8]) -> usize
    ensures { IsFilled (section_bytes word header.now) from out.old out.new result }
{
    let names = pack_section_names(header);
    let numbers = pack_section_numbers(word, header);
    pair_window(names.as_slice(), numbers.as_slice(), from, out)
}

// fills what is left of a buffer from a section header that begins at a place of the table
fn fill_header(
    word: Word,
    header: &SectionHeader,
    begin: u64,
    from: u64,
    done: usize,
    out: &mut [u8],
) -> usize
    requires room { done ≤ length out.old }
    requires filled { done ≤ begin - from }
    ensures { IsFilledOn (λ xs. length xs ≡ begin) (λ _. section_bytes word header.now) from (done, out.old) (result, out.new) }
{
    let at = (from + done as u64).saturating_sub(begin);
    done + header_window(word, header, at, &mut out[done..])
}

/// A window of the section headers, as `copy_window` gives it. The time is that of the headers that
/// meet the window.
pub(crate) fn headers_window(
    word: Word,
    headers: &[SectionHeader],
    from: u64,
    out: &mut [u8],
) -> usize
    requires headed { HaveSize (section_header_size word) (map (section_bytes word) headers.now) }
    requires small { length (table_of (map (section_bytes word) headers.now)) < 2 ^ 64 }
    ensures { IsFilled (table_of (map (section_bytes word) headers.now)) from out.old out.new result }
{
    let size = section_header_size(word);
    let count = headers.len();
    let first = from / size;
    if first >= count as u64 {
        return 0;
    }
    let mut done = 0;
    for k in first as usize..count {
        if done == out.len() {
            return done;
        }
        done = fill_header(word, &headers[k], size * k as u64, from, done, out);
    }
    done
}

/// A window of a string table with the empty name before it and zeros after it, as `copy_window`
/// gives it. Linear in `out`.
pub(crate) fn strings_window(word: Word, names: &Table, from: u64, out: &mut [u8]) -> usize
    requires { length (strings_of names.now.names) < 2 ^ 63 }
    ensures { IsFilled (filled (address_size word) (strings_of names.now.names)) from out.old out.new result }
{
    let head = [0; STRINGS_HEAD as usize];
    let done = pair_window(&head, names.bytes(), from, out);
    let text = u64::from(STRINGS_HEAD) + names.bytes().len() as u64;
    let past = (from + done as u64).saturating_sub(text);
    done + zero_window(padding(word, names), past, &mut out[done..])
}
