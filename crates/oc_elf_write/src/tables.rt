//! The tables of a file, entry by entry, and windows of its string tables.
ghost use Rattle.std.specs.Prelude.{◌≡◌, ◌^◌, ◌<◌, length};
ghost use Rattle.oc_outside.specs.Windows.{IsFilled};
ghost use Rattle.oc_shelf.specs.Writing.Parts.{row_of, table_of};
ghost use Rattle.oc_elf_file.specs.Layout.{strings_of};
ghost use Rattle.oc_elf_write.specs.Tables.{rows_by};

use oc_base::Word;
use oc_elf::{
    ElfClass, GRP_ENTRY_SIZE, Rel, SHNDX_SIZE, Shdr, Sym, pack_index, pack_rel, pack_shdr,
    pack_sym, pack_word, rel_size, shdr_size, sym_size,
};
use oc_shelf::{Packed, WritesRows, copy_window};
use oc_strings::Table;

/// A table of a file.
#[derive(Clone, Copy)]
pub(crate) enum TableRows<'a> {
    /// The section headers.
    Headers(Word, &'a [Shdr]),
    /// The relocation entries of a section.
    Relocs(Word, &'a [Rel]),
    /// The symbol table.
    Symbols(ElfClass, &'a [Sym]),
    /// The section numbers of symbols.
    Indexes(&'a [Sym]),
    /// The words of a group.
    Words(&'a [u32]),
}

impl TableRows<'_> {
    // entry `k`
    fn row(self, k: usize) -> Packed
        requires { k < length (rows_by self) }
        ensures { result ≡ row_of (rows_by self.entry) k }
    {
        match self {
            TableRows::Headers(word, headers) => pack_shdr(word, &headers[k]),
            TableRows::Relocs(word, relocs) => pack_rel(word, relocs[k]),
            TableRows::Symbols(class, symbols) => pack_sym(class, &symbols[k]),
            TableRows::Indexes(symbols) => pack_index(&symbols[k]),
            TableRows::Words(words) => pack_word(words[k]),
        }
    }

    /// How many bytes the table has. Constant time.
    pub(crate) fn byte_count(&self) -> u64
        requires { length (table_of (rows_by self.now)) < 2 ^ 64 }
        ensures { result ≡ length (table_of (rows_by self.now)) }
    {
        self.size() as u64 * self.count() as u64
    }
}

impl WritesRows for TableRows<'_> {
    ghost use Rattle.oc_elf_write.specs.Tables.{rows_by};

    ghost rows = { rows_by };

    fn count(&self) -> usize {
        match *self {
            TableRows::Headers(_, headers) => headers.len(),
            TableRows::Relocs(_, relocs) => relocs.len(),
            TableRows::Symbols(_, symbols) => symbols.len(),
            TableRows::Indexes(symbols) => symbols.len(),
            TableRows::Words(words) => words.len(),
        }
    }

    fn size(&self) -> usize {
        match *self {
            TableRows::Headers(word, _) => shdr_size(word) as usize,
            TableRows::Relocs(word, _) => rel_size(word) as usize,
            TableRows::Symbols(class, _) => sym_size(class.word()) as usize,
            TableRows::Indexes(_) => SHNDX_SIZE as usize,
            TableRows::Words(_) => GRP_ENTRY_SIZE as usize,
        }
    }

    fn put_row(&self, k: usize, out: &mut [u8]) {
        out.copy_from_slice(self.row(k).as_slice());
    }
}

/// A window of a string table with the empty name before it, as `copy_window` gives it. Linear in `out`.
pub(crate) fn strings_window(names: &Table, from: u64, out: &mut [u8]) -> usize
    requires { length (strings_of names.now.names) < 2 ^ 64 }
    ensures { IsFilled (strings_of names.now.names) from out.old out.new result }
{
    let head = [0];
    let done = copy_window(&head, from, out);
    let past = (from + done as u64).saturating_sub(1);
    done + copy_window(names.bytes(), past, &mut out[done..])
}
