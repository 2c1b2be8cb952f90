//! A file whose header has no fault: its tables, read in place.
ghost use Rattle.std.specs.Prelude.{◌≡◌, ◌+◌, ◌*◌, ◌<◌, ◌≤◌, false, length, take, drop, slice_get, Some, None, IfErr, IfOk, OnOk};
ghost use Rattle.oc_base.specs.declared.limits.TheConstants.{MOST_INPUT};
ghost use Rattle.oc_linking.specs.FirstFault.{stage_fault};
ghost use Rattle.oc_macho.specs.Framed as framed;
ghost use Rattle.oc_macho.specs.Framed.{EndsTexts, IsTable};
ghost use Rattle.oc_macho.specs.HeaderFaults as rules;
ghost use Rattle.oc_macho.specs.Nlist as nlist;
ghost use Rattle.oc_macho.specs.SectionHeader as section;
ghost use Rattle.oc_macho.specs.Sections.{is_zerofill};
ghost use Rattle.oc_macho.specs.Tables as tables;

use crate::nlist::{Nlist, nlist_at, nlist_size};
use crate::relocation_info::{RELOCATION_INFO_SIZE, RelocationInfo, relocation_info_at};
use crate::section_header::{SectionHeader, section_header_at, section_header_size};
use oc_base::Word;
use std::marker::Model;

/// A file whose header has no fault. Contracts see its tables.
#[derive(Drop)]
pub struct Frame<'a> {
    pub(crate) word: Word,
    pub(crate) file: &'a [u8],
    pub(crate) headers_at: u64,
    pub(crate) nsects: u32,
    pub(crate) symoff: u32,
    pub(crate) nsyms: u32,
    pub(crate) strings: &'a [u8],
    pub(crate) text_end: usize,
}

impl<'a> Model for Frame<'a> {
    ghost use Rattle.oc_macho.specs.Tables.{Tables, tables_of};
    ghost use Rattle.oc_macho.specs.Framed.{IsFrame};

    ghost Value = { Tables };

    ghost view = { λ f. tables_of f.word f.file.now };

    ghost invariant = { λ f. IsFrame f.word f.file.now f.headers_at f.nsects f.symoff f.nsyms f.strings.now f.text_end };
}

/// So many bytes of a file from a place on. Constant time.
pub(crate) fn bytes_at(file: &[u8], at: usize, size: usize) -> &[u8]
    requires { at + size ≤ length file.now }
    ensures { result.now ≡ take size (drop at file.now) }
{
    &file[at..at + size]
}

impl<'a> Frame<'a> {
    /// The word of the file. Constant time.
    #[tactic(auto, unfolding(crate::specs::Tables::tables_of))]
    pub fn word(&self) -> Word
        ensures { result ≡ self.now.word }
    {
        self.word
    }

    /// How many bytes the file has. Constant time.
    #[tactic(auto, unfolding(crate::specs::Tables::tables_of))]
    pub fn size(&self) -> u64
        ensures size { result ≡ self.now.file_size }
        ensures small { result ≤ MOST_INPUT }
    {
        self.file.len() as u64
    }

    /// The strings. Constant time.
    pub fn strings(&self) -> &'a [u8]
        ensures { result.now ≡ self.now.strings }
    {
        self.strings
    }

    /// Behind the last NUL among the strings, in bytes: just before it there are names. Constant time.
    pub fn text_end(&self) -> usize
        ensures { EndsTexts self.now.strings result }
    {
        self.text_end
    }

    /// How many sections there are. Constant time.
    pub fn section_count(&self) -> u32
        ensures count { result ≡ length self.now.sections }
        ensures few { result ≤ MOST_INPUT }
    {
        self.nsects
    }

    /// The number of section `i`, counted from 0. Constant time.
    pub fn number(&self, i: u32) -> u32
        requires { i < length self.now.sections }
        ensures { result ≡ i + 1 }
    {
        let count = self.section_count();
        i.min(count) + 1
    }

    /// Where the header of section `i` lies, counted from 0. Constant time.
    pub fn header_place(&self, i: u32) -> u64
        requires { i < length self.now.sections }
        ensures place { result ≡ self.now.headers_at + section.section_header_size self.now.word * i }
        ensures inside { result + section.section_header_size self.now.word ≤ self.now.file_size }
    {
        self.headers_at + section_header_size(self.word) * u64::from(i)
    }

    /// The header of section `i`, counted from 0. Constant time.
    pub fn section(&self, i: u32) -> SectionHeader
        requires { i < length self.now.sections }
        ensures { result ≡ (framed.table_at self.now i).header }
    {
        section_header_at(self.word, self.file, self.header_place(i) as usize)
    }

    /// How many symbols there are. Constant time.
    pub fn symbol_count(&self) -> u32
        ensures count { result ≡ length self.now.symbols }
        ensures few { result ≤ MOST_INPUT }
    {
        self.nsyms
    }

    /// Where symbol `j` lies. Constant time.
    pub fn symbol_place(&self, j: u32) -> u64
        requires { j < length self.now.symbols }
        ensures place { result ≡ self.now.symbols_at + nlist.nlist_size self.now.word * j }
        ensures inside { result + nlist.nlist_size self.now.word ≤ self.now.file_size }
    {
        u64::from(self.symoff) + nlist_size(self.word) * u64::from(j)
    }

    /// Symbol `j`. Constant time.
    pub fn symbol(&self, j: u32) -> Nlist
        requires { j < length self.now.symbols }
        ensures { slice_get self.now.symbols j ≡ Some result }
    {
        nlist_at(self.word, self.file, self.symbol_place(j) as usize)
    }

    /// Relocation entry `k` of section `i`, which has that header. Constant time.
    pub fn entry(&self, i: u32, h: &SectionHeader, k: u32) -> RelocationInfo
        requires table { IsTable self.now i h.now }
        requires there { k < h.now.nreloc }
        ensures entry { slice_get (framed.table_at self.now i).relocs k ≡ Some result }
        ensures length { result.r_length < 4 }
    {
        let place = u64::from(h.reloff) + RELOCATION_INFO_SIZE as u64 * u64::from(k);
        relocation_info_at(self.file, place as usize)
    }

    /// The bytes of section `i` in the file, which has that header. Constant time.
    pub fn raw(&self, i: u32, h: &SectionHeader) -> &'a [u8]
        requires table { IsTable self.now i h.now }
        requires stored { is_zerofill h.now ≡ false }
        ensures { result.now ≡ (framed.table_at self.now i).raw }
    {
        bytes_at(self.file, h.offset as usize, h.size as usize)
    }

    /// That the entries of section `i` are as many as its header says, for callers to cite. It does
    /// nothing.
    pub fn has_entries(&self, i: u32, h: &SectionHeader)
        requires there { i < length self.now.sections }
        requires is { h.now ≡ (framed.table_at self.now i).header }
        ensures { length (framed.table_at self.now i).relocs ≡ h.now.nreloc }
    {
        // read for the proof: the invariant of the struct, and the range of the field
        let _ = (self.nsects, i, h.nreloc);
    }

    /// That the bytes of section `i`, which has that header, are as many as it says, for callers to
    /// cite. It does nothing.
    pub fn has_bytes(&self, i: u32, h: &SectionHeader)
        requires table { IsTable self.now i h.now }
        requires stored { is_zerofill h.now ≡ false }
        ensures { length (framed.table_at self.now i).raw ≡ h.now.size }
    {
        // read for the proof: the invariant of the struct, and the range of the field
        let _ = (self.nsects, i, h.size);
    }
}
