//! Windows of the tables of a file, and of its string table.
ghost use Rattle.std.specs.Prelude.{◌≡◌, ◌+◌, ◌^◌, ◌<◌, Some, length, map, slice_get};
ghost use Rattle.oc_base.specs.Numbers.{bytes_of_number};
ghost use Rattle.oc_base.specs.Strings.{table_text};
ghost use Rattle.oc_outside.specs.Windows.{IsFilled};
ghost use Rattle.oc_shelf.specs.Writing.Parts.{table_of, HaveSize};
ghost use Rattle.oc_neutral.specs.declared.coff.TheConstants.{STRINGS_HEAD as HEAD};
ghost use Rattle.oc_coff.specs.declared.section_header.TheConstants.{SECTION_HEADER_SIZE as HEADER};
ghost use Rattle.oc_coff.specs.Forms as forms;
ghost use Rattle.oc_coff.specs.SectionHeader.{section_header_bytes};
ghost use Rattle.oc_coff.specs.Flags as flags;
ghost use Rattle.oc_coff_write.specs.Entries.{entry_bytes};
ghost use Rattle.oc_coff_write.specs.Plans.{relocation_rows, strings_bytes};

use crate::entries::{Entry, pack_entry};
use oc_coff::{
    RELOCATION_SIZE, Relocation, SECTION_HEADER_SIZE, SectionHeader, Shape, count_entry,
    entry_count, is_crowded, pack_relocation, pack_section_header, symbol_size,
};
use oc_neutral::coff::STRINGS_HEAD;
use oc_shelf::{WritesRows, copy_window, rows_window};
use oc_strings::Table;
use std::marker::Model;

// header `k`
fn header(headers: &[SectionHeader], k: usize) -> &SectionHeader
    requires { k < length (map section_header_bytes headers.now) }
    ensures { slice_get headers.now k ≡ Some result.now }
{
    &headers[k]
}

/// The section headers. Contracts see the bytes of each.
#[derive(Drop)]
struct HeaderRows<'a> {
    headers: &'a [SectionHeader],
}

impl<'a> Model for HeaderRows<'a> {
    ghost use Rattle.std.specs.Prelude.{ℕ, List, map};
    ghost use Rattle.oc_shelf.specs.Writing.Parts.{HaveSize};
    ghost use Rattle.oc_coff.specs.declared.section_header.TheConstants.{SECTION_HEADER_SIZE};
    ghost use Rattle.oc_coff.specs.SectionHeader.{section_header_bytes};

    ghost Value = { List (List ℕ) };

    ghost view = { λ t. map section_header_bytes t.headers.now };

    ghost invariant = { λ t. HaveSize SECTION_HEADER_SIZE (map section_header_bytes t.headers.now) };
}

impl WritesRows for HeaderRows<'_> {
    ghost rows = { λ t. t };

    fn count(&self) -> usize {
        self.headers.len()
    }

    fn size(&self) -> usize {
        let _ = &self.headers;
        SECTION_HEADER_SIZE
    }

    fn put_row(&self, k: usize, out: &mut [u8]) {
        out.copy_from_slice(pack_section_header(header(self.headers, k)).as_slice());
    }
}

/// A window of the section headers, as `copy_window` gives it. The time is that of the headers that
/// meet the window.
pub(crate) fn headers_window(headers: &[SectionHeader], from: u64, out: &mut [u8]) -> usize
    requires sized { HaveSize HEADER (map section_header_bytes headers.now) }
    requires small { length (table_of (map section_header_bytes headers.now)) < 2 ^ 32 }
    ensures { IsFilled (table_of (map section_header_bytes headers.now)) from out.old out.new result }
{
    rows_window(&HeaderRows { headers }, from, out)
}

// entry `k`
fn entry(entries: &[Entry], k: usize) -> &Entry
    requires { k < length entries.now }
    ensures { slice_get entries.now k ≡ Some result.now }
{
    &entries[k]
}

/// The entries of the symbol table. Contracts see the bytes of each.
#[derive(Drop)]
struct EntryRows<'a> {
    shape: Shape,
    entries: &'a [Entry],
}

impl<'a> Model for EntryRows<'a> {
    ghost use Rattle.std.specs.Prelude.{ℕ, List, map};
    ghost use Rattle.oc_shelf.specs.Writing.Parts.{HaveSize};
    ghost use Rattle.oc_coff.specs.Forms.{symbol_size};
    ghost use Rattle.oc_coff_write.specs.Entries.{entry_bytes};

    ghost Value = { List (List ℕ) };

    ghost view = { λ t. map (entry_bytes t.shape) t.entries.now };

    ghost invariant = { λ t. HaveSize (symbol_size t.shape) (map (entry_bytes t.shape) t.entries.now) };
}

impl WritesRows for EntryRows<'_> {
    ghost rows = { λ t. t };

    fn count(&self) -> usize {
        self.entries.len()
    }

    fn size(&self) -> usize {
        symbol_size(self.shape)
    }

    fn put_row(&self, k: usize, out: &mut [u8]) {
        out.copy_from_slice(pack_entry(self.shape, entry(self.entries, k)).as_slice());
    }
}

/// A window of the symbol table, as `copy_window` gives it. The time is that of the entries that meet
/// the window.
pub(crate) fn entries_window(shape: Shape, entries: &[Entry], from: u64, out: &mut [u8]) -> usize
    requires sized { HaveSize (forms.symbol_size shape) (map (entry_bytes shape) entries.now) }
    requires small { length (table_of (map (entry_bytes shape) entries.now)) < 2 ^ 32 }
    ensures { IsFilled (table_of (map (entry_bytes shape) entries.now)) from out.old out.new result }
{
    rows_window(&EntryRows { shape, entries }, from, out)
}

// relocation entry `k` of a section with these relocations
fn relocation_at(relocs: &[Relocation], k: usize) -> Relocation
    requires few { length relocs.now + 1 < 2 ^ 32 }
    requires there { k < length (flags.with_count relocs.now) }
    ensures { slice_get (flags.with_count relocs.now) k ≡ Some result }
{
    if !is_crowded(relocs.len()) {
        return relocs[k];
    }
    if k == 0 {
        return count_entry(relocs.len());
    }
    relocs[k - 1]
}

/// The relocation entries of a section. Contracts see its relocations.
#[derive(Drop)]
struct RelocationRows<'a> {
    relocs: &'a [Relocation],
}

impl<'a> Model for RelocationRows<'a> {
    ghost use Rattle.std.specs.Prelude.{◌+◌, ◌^◌, ◌<◌, List, length};
    ghost use Rattle.oc_coff.specs.declared.relocation.Relocation.{Relocation};

    ghost Value = { List Relocation };

    ghost view = { λ t. t.relocs.now };

    ghost invariant = { λ t. length t.relocs.now + 1 < 2 ^ 32 };
}

impl WritesRows for RelocationRows<'_> {
    ghost use Rattle.oc_coff_write.specs.Plans.{relocation_rows};

    ghost rows = { λ t. relocation_rows t };

    fn count(&self) -> usize {
        entry_count(self.relocs.len())
    }

    fn size(&self) -> usize {
        RELOCATION_SIZE
    }

    fn put_row(&self, k: usize, out: &mut [u8]) {
        out.copy_from_slice(pack_relocation(relocation_at(self.relocs, k)).as_slice());
    }
}

/// A window of the relocation entries of a section, as `copy_window` gives it. The time is that of
/// the entries that meet the window.
pub(crate) fn relocations_window(relocs: &[Relocation], from: u64, out: &mut [u8]) -> usize
    requires { length (table_of (relocation_rows relocs.now)) < 2 ^ 32 }
    ensures { IsFilled (table_of (relocation_rows relocs.now)) from out.old out.new result }
{
    rows_window(&RelocationRows { relocs }, from, out)
}

// the size of a string table as its bytes
#[tactic(auto, unfolding(oc_base::specs::Numbers::bytes_of_number))]
fn size_bytes(size: u32) -> [u8; STRINGS_HEAD]
    ensures bytes { result ≡ bytes_of_number HEAD size }
    ensures long { length result ≡ HEAD }
{
    size.to_le_bytes()
}

/// A window of the string table with its size before it, as `copy_window` gives it. Linear in `out`.
pub(crate) fn strings_window(names: &Table, from: u64, out: &mut [u8]) -> usize
    requires { HEAD + length (table_text names.now.names) < 2 ^ 32 }
    ensures { IsFilled (strings_bytes names.now) from out.old out.new result }
{
    let text = names.bytes();
    let head = size_bytes((STRINGS_HEAD + text.len()) as u32);
    let done = copy_window(&head, from, out);
    let past = (from + done as u64).saturating_sub(STRINGS_HEAD as u64);
    done + copy_window(text, past, &mut out[done..])
}
