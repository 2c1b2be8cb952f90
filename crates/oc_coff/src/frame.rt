//! A file whose header has no fault: its tables, read in place.
ghost use Rattle.std.specs.Prelude.{◌≡◌, ◌+◌, ◌*◌, ◌<◌, ◌≤◌, ◌^◌, length, take, drop, slice_get, None, Some, IfErr, IfOk, OnOk};
ghost use Rattle.oc_base.specs.declared.limits.TheConstants.{MOST_INPUT};
ghost use Rattle.oc_linking.specs.FirstFault.{stage_fault};
ghost use Rattle.oc_coff.specs.FileHeader.{file_header_of};
ghost use Rattle.oc_coff.specs.Forms.{symbol_size};
ghost use Rattle.oc_coff.specs.HeaderFaults.{header_stage};
ghost use Rattle.oc_coff.specs.SectionHeader.{section_header_at};
ghost use Rattle.oc_coff.specs.SymbolEntry.{symbol_at};
ghost use Rattle.oc_coff.specs.Tables as tables;
ghost use Rattle.oc_coff.specs.Files as files;
ghost use Rattle.oc_coff.specs.Head.{IsHeaded};

use crate::file_header::{FileHeader, file_header_of};
use crate::form::{Shape, header_size};
use crate::headers::{entries_size, has_strings, header_fault, strings_place};
use crate::section_aux::{SectionAux, section_aux_at};
use crate::section_header::{SECTION_HEADER_SIZE, SectionHeader, section_header_at};
use crate::strings::Strings;
use crate::symbol::{SymbolEntry, symbol_at};
use crate::weak_aux::{WeakAux, weak_aux_at};
use oc_base::{Fault, u32_in};
use std::marker::Model;

/// A file whose header has no fault. Contracts see its shape and its bytes.
#[derive(Drop)]
pub struct Coff<'a> {
    shape: Shape,
    file: &'a [u8],
    header: FileHeader,
    strings: Strings<'a>,
}

impl<'a> Model for Coff<'a> {
    ghost use Rattle.std.specs.Prelude.{◌≡◌};
    ghost use Rattle.oc_coff.specs.FileHeader.{file_header_of};
    ghost use Rattle.oc_coff.specs.Tables.{strings_of};
    ghost use Rattle.oc_coff.specs.Files.{CoffFile};
    ghost use Rattle.oc_coff.specs.Head.{IsHeaded};

    ghost Value = { CoffFile };

    ghost view = { λ c. record { shape = c.shape; bytes = c.file.now } };

    ghost invariant = { λ c. IsHeaded (record { shape = c.shape; bytes = c.file.now })
        × ((c.header ≡ file_header_of c.shape c.file.now) × (c.strings ≡ strings_of c.shape c.file.now (file_header_of c.shape c.file.now))) };
}

// so many bytes of the file from a place on
fn bytes_at(file: &[u8], at: usize, size: usize) -> &[u8]
    requires { at + size ≤ length file.now }
    ensures { result.now ≡ take size (drop at file.now) }
{
    &file[at..at + size]
}

// the string table, where the header has no fault
#[tactic(auto, unfolding(crate::specs::Tables::strings_of))]
fn strings_of<'a>(shape: Shape, file: &'a [u8], h: &FileHeader) -> &'a [u8]
    requires head { IsHeaded (record { shape = shape; bytes = file.now }) }
    requires header { h.now ≡ file_header_of shape file.now }
    ensures { result.now ≡ tables.strings_of shape file.now h.now }
{
    if !has_strings(shape, file, h) {
        return &[];
    }
    let place = strings_place(shape, h) as usize;
    let size = u32_in(file, place) as usize;
    bytes_at(file, place, size)
}

/// The file with its header. An error exactly where the header has a fault, with the first. Linear
/// in what comes after the last NUL of the string table.
pub fn read_coff<'a>(shape: Shape, file: &'a [u8]) -> Result<Coff<'a>, Fault>
    requires { length file.now ≤ MOST_INPUT }
    ensures file { IfOk result (λ c. c ≡ record { shape = shape; bytes = file.now }) }
    ensures clean { OnOk result (stage_fault (header_stage shape file.now) ≡ None) }
    ensures fault { IfErr result (λ fault. stage_fault (header_stage shape file.now) ≡ Some fault) }
{
    match header_fault(shape, file) {
        Some(fault) => return Err(fault),
        None => (),
    }
    let header = file_header_of(shape, file);
    let strings = Strings::new(strings_of(shape, file, &header));
    Ok(Coff {
        shape,
        file,
        header,
        strings,
    })
}

impl<'a> Coff<'a> {
    /// The bytes of the file. Constant time.
    pub fn file(&self) -> &'a [u8]
        ensures { result.now ≡ self.now.bytes }
    {
        self.file
    }

    /// Its shape. Constant time.
    pub fn shape(&self) -> Shape
        ensures { result ≡ self.now.shape }
    {
        self.shape
    }

    /// The string table. Constant time.
    #[tactic(auto, unfolding(crate::specs::Tables::tables_of))]
    pub fn strings(&self) -> &Strings<'a>
        ensures { result.now ≡ (files.tables_in self.now).strings }
    {
        &self.strings
    }

    /// How many sections there are. Constant time.
    pub fn section_count(&self) -> u32
        ensures { result ≡ length (files.tables_in self.now).sections }
    {
        self.header.NumberOfSections
    }

    /// The header of section `i`, counted from 0. Constant time.
    pub fn section(&self, i: u32) -> SectionHeader
        requires { i < length (files.tables_in self.now).sections }
        ensures { slice_get (files.tables_in self.now).sections i ≡ Some (tables.section_table self.now.bytes result) }
    {
        section_header_at(
            self.file,
            header_size(self.shape) + SECTION_HEADER_SIZE * i as usize,
        )
    }

    /// How many entries the symbol table has, auxiliary ones too. Constant time.
    pub fn entry_count(&self) -> u32
        ensures { result ≡ length (files.tables_in self.now).entries }
    {
        self.header.NumberOfSymbols
    }

    /// Where entry `j` of the symbol table begins, in bytes from the start of the file. Constant time.
    pub fn entry_place(&self, j: u32) -> u64
        ensures { result ≡ (files.tables_in self.now).entries_at + symbol_size self.now.shape * j }
    {
        u64::from(self.header.PointerToSymbolTable) + entries_size(self.shape, j)
    }

    /// Entry `j` of the symbol table, as a symbol. Constant time.
    pub fn symbol(&self, j: u32) -> SymbolEntry
        requires { j < length (files.tables_in self.now).entries }
        ensures { result ≡ (files.slot_in self.now ((files.tables_in self.now).entries_at + symbol_size self.now.shape * j)).symbol }
    {
        symbol_at(self.shape, self.file, self.entry_place(j) as usize)
    }

    /// The eight bytes of the name of entry `j`, in place. Constant time.
    #[tactic(auto, unfolding(crate::specs::Tables::slot_at, crate::specs::SymbolEntry::symbol_at))]
    pub fn name_field(&self, j: u32) -> &'a [u8]
        requires { j < length (files.tables_in self.now).entries }
        ensures bytes { result.now ≡ (files.slot_in self.now ((files.tables_in self.now).entries_at + symbol_size self.now.shape * j)).symbol.Name }
        ensures long { length result.now ≡ 8 }
    {
        bytes_at(self.file, self.entry_place(j) as usize, 8)
    }

    /// Entry `j` of the symbol table, as what a section's own symbol says. Constant time.
    pub fn section_aux(&self, j: u32) -> SectionAux
        requires { j < length (files.tables_in self.now).entries }
        ensures { result ≡ (files.slot_in self.now ((files.tables_in self.now).entries_at + symbol_size self.now.shape * j)).section }
    {
        section_aux_at(self.shape, self.file, self.entry_place(j) as usize)
    }

    /// Entry `j` of the symbol table, as what a weak external says. Constant time.
    pub fn weak_aux(&self, j: u32) -> WeakAux
        requires { j < length (files.tables_in self.now).entries }
        ensures { result ≡ (files.slot_in self.now ((files.tables_in self.now).entries_at + symbol_size self.now.shape * j)).weak }
    {
        weak_aux_at(self.file, self.entry_place(j) as usize)
    }

    /// That there are few sections, for callers to cite. It does nothing.
    pub fn has_few(&self)
        ensures { length (files.tables_in self.now).sections < 2 ^ 21 }
    {
        let _ = &self.file;
    }

    /// What is known of it, for callers to cite. It does nothing.
    pub fn is_headed(&self)
        ensures { IsHeaded self.now }
    {
        let _ = &self.file;
    }
}
