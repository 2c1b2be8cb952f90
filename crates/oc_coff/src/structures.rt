//! COFF structures as bytes.
ghost use Rattle.std.specs.Prelude.{◌≡◌, ◌+◌, ◌%◌, ◌≤◌, ◌++◌, length};
ghost use Rattle.oc_coff.specs.declared.form.Shape.TheVariants.{Usual, Big};
ghost use Rattle.oc_base.specs.Numbers.{bytes_of_number};
ghost use Rattle.oc_coff.specs.FileHeader.{class_id, file_header_bytes};
ghost use Rattle.oc_coff.specs.declared.section_aux.TheConstants.{HIGH_NUMBER as HIGH};
ghost use Rattle.oc_shelf.specs.Writing.Packed.{packed};
ghost use Rattle.oc_coff.specs.Relocation.{relocation_bytes};
ghost use Rattle.oc_coff.specs.SectionAux.{section_aux_bytes};
ghost use Rattle.oc_coff.specs.SectionHeader.{section_header_bytes};
ghost use Rattle.oc_coff.specs.SymbolEntry.{symbol_bytes};
ghost use Rattle.oc_coff.specs.WeakAux.{weak_aux_bytes};
ghost use Rattle.oc_shelf.specs.declared.writing.rows.TheConstants.{ROW};

use crate::constants::{BIG_SIGNATURE, IMAGE_FILE_MACHINE_UNKNOWN};
use crate::file_header::FileHeader;
use crate::form::Shape;
use crate::relocation::Relocation;
use crate::section_aux::{HIGH_NUMBER, SectionAux};
use crate::section_header::SectionHeader;
use crate::symbol::SymbolEntry;
use crate::weak_aux::WeakAux;
use oc_shelf::Packed;

/// The ClassID of an object of many sections (winnt.h, "ANON_OBJECT_HEADER_BIGOBJ").
const CLASS_ID: [u8; 16] = [
    0xC7, 0xA1, 0xBA, 0xD1, 0xEE, 0xBA, 0xA9, 0x4B, 0xAF, 0x20, 0xFA, 0xF6, 0x6A, 0xA4, 0xDC, 0xB8,
];

// puts the low 16 bits of a number, which are all of a number below 2^16
#[tactic(auto, using(crate::proofs::StructureLemmas::low_bytes))]
fn put_low(out: &mut Packed, number: u32)
    requires room { length out.old + 2 ≤ ROW }
    ensures low { out.new ≡ out.old ++ bytes_of_number 2 (number % HIGH) }
    ensures whole { out.new ≡ out.old ++ bytes_of_number 2 number }
    ensures long { length out.new ≡ length out.old + 2 }
{
    out.put_u16((number % HIGH_NUMBER) as u16);
}

// puts that class
#[tactic(auto, unfolding(oc_base::specs::Numbers::bytes_of_number))]
fn put_class_id(out: &mut Packed)
    requires { length out.old + 16 ≤ ROW }
    ensures bytes { out.new ≡ out.old ++ packed class_id }
    ensures long { length out.new ≡ length out.old + 16 }
{
    out.put(&CLASS_ID);
}

// the usual file header
#[tactic(auto, unfolding(crate::specs::FileHeader::file_header_bytes))]
fn pack_usual_header(header: &FileHeader) -> Packed
    ensures { result ≡ file_header_bytes Usual header.now }
{
    let mut out = Packed::new();
    out.put_u16(header.Machine);
    put_low(&mut out, header.NumberOfSections);
    out.put_u32(header.TimeDateStamp);
    out.put_u32(header.PointerToSymbolTable);
    out.put_u32(header.NumberOfSymbols);
    out.put_u16(header.SizeOfOptionalHeader);
    out.put_u16(header.Characteristics);
    out
}

// that of an object of many sections
#[tactic(auto, unfolding(crate::specs::FileHeader::file_header_bytes))]
fn pack_big_header(header: &FileHeader) -> Packed
    ensures { result ≡ file_header_bytes Big header.now }
{
    let mut out = Packed::new();
    out.put_u16(IMAGE_FILE_MACHINE_UNKNOWN);
    out.put_u16(BIG_SIGNATURE);
    out.put_u16(header.Version);
    out.put_u16(header.Machine);
    out.put_u32(header.TimeDateStamp);
    put_class_id(&mut out);
    // SizeOfData, Flags, MetaDataSize and MetaDataOffset
    out.put_u32(0);
    out.put_u32(0);
    out.put_u32(0);
    out.put_u32(0);
    out.put_u32(header.NumberOfSections);
    out.put_u32(header.PointerToSymbolTable);
    out.put_u32(header.NumberOfSymbols);
    out
}

/// The bytes of a file header of that shape. Constant time.
#[tactic(auto, unfolding(crate::specs::FileHeader::file_header_bytes))]
pub fn pack_file_header(shape: Shape, header: &FileHeader) -> Packed
    ensures { result ≡ file_header_bytes shape header.now }
{
    match shape {
        Shape::Usual => pack_usual_header(header),
        Shape::Big => pack_big_header(header),
    }
}

/// The bytes of a section header. Constant time.
#[tactic(auto, unfolding(crate::specs::SectionHeader::section_header_bytes))]
pub fn pack_section_header(header: &SectionHeader) -> Packed
    ensures { result ≡ section_header_bytes header.now }
{
    let mut out = Packed::new();
    out.put(&header.Name);
    out.put_u32(header.VirtualSize);
    out.put_u32(header.VirtualAddress);
    out.put_u32(header.SizeOfRawData);
    out.put_u32(header.PointerToRawData);
    out.put_u32(header.PointerToRelocations);
    out.put_u32(header.PointerToLinenumbers);
    out.put_u16(header.NumberOfRelocations);
    out.put_u16(header.NumberOfLinenumbers);
    out.put_u32(header.Characteristics);
    out
}

/// The bytes of a relocation entry. Constant time.
#[tactic(auto, unfolding(crate::specs::Relocation::relocation_bytes))]
pub fn pack_relocation(relocation: Relocation) -> Packed
    ensures { result ≡ relocation_bytes relocation }
{
    let mut out = Packed::new();
    out.put_u32(relocation.VirtualAddress);
    out.put_u32(relocation.SymbolTableIndex);
    out.put_u16(relocation.Type);
    out
}

/// The bytes of an entry of the symbol table. Constant time.
#[tactic(auto, unfolding(crate::specs::SymbolEntry::symbol_bytes))]
pub fn pack_symbol(shape: Shape, symbol: &SymbolEntry) -> Packed
    ensures { result ≡ symbol_bytes shape symbol.now }
{
    let mut out = Packed::new();
    out.put(&symbol.Name);
    out.put_u32(symbol.Value);
    match shape {
        Shape::Usual => put_low(&mut out, symbol.SectionNumber),
        Shape::Big => out.put_u32(symbol.SectionNumber),
    }
    out.put_u16(symbol.Type);
    out.put_u8(symbol.StorageClass);
    out.put_u8(symbol.NumberOfAuxSymbols);
    out
}

// puts the three unused bytes of a section's auxiliary entry
#[tactic(auto, unfolding(oc_base::specs::Numbers::bytes_of_number))]
fn put_three(out: &mut Packed)
    requires { length out.old + 3 ≤ ROW }
    ensures { out.new ≡ out.old ++ bytes_of_number 3 0 }
{
    out.put(&[0; 3]);
}

// that entry in a file of few sections
#[tactic(auto, unfolding(crate::specs::SectionAux::section_aux_bytes))]
fn pack_usual_aux(aux: &SectionAux) -> Packed
    ensures { result ≡ section_aux_bytes Usual aux.now }
{
    let mut out = Packed::new();
    out.put_u32(aux.Length);
    out.put_u16(aux.NumberOfRelocations);
    out.put_u16(aux.NumberOfLinenumbers);
    out.put_u32(aux.CheckSum);
    put_low(&mut out, aux.Number);
    out.put_u8(aux.Selection);
    put_three(&mut out);
    out
}

// and of many
#[tactic(auto, unfolding(crate::specs::SectionAux::section_aux_bytes))]
fn pack_big_aux(aux: &SectionAux) -> Packed
    ensures { result ≡ section_aux_bytes Big aux.now }
{
    let mut out = Packed::new();
    out.put_u32(aux.Length);
    out.put_u16(aux.NumberOfRelocations);
    out.put_u16(aux.NumberOfLinenumbers);
    out.put_u32(aux.CheckSum);
    put_low(&mut out, aux.Number);
    out.put_u8(aux.Selection);
    out.put_u8(0);
    out.put_u16((aux.Number / HIGH_NUMBER) as u16);
    out.put_u16(0);
    out
}

/// The bytes of the auxiliary entry of a section's own symbol. Constant time.
pub fn pack_section_aux(shape: Shape, aux: &SectionAux) -> Packed
    ensures { result ≡ section_aux_bytes shape aux.now }
{
    match shape {
        Shape::Usual => pack_usual_aux(aux),
        Shape::Big => pack_big_aux(aux),
    }
}

// puts the ten unused bytes of a weak external's auxiliary entry
#[tactic(auto, unfolding(oc_base::specs::Numbers::bytes_of_number))]
fn put_ten(out: &mut Packed)
    requires { length out.old + 10 ≤ ROW }
    ensures { out.new ≡ out.old ++ bytes_of_number 10 0 }
{
    out.put(&[0; 10]);
}

// and the twelve in an object of many sections
#[tactic(auto, unfolding(oc_base::specs::Numbers::bytes_of_number))]
fn put_twelve(out: &mut Packed)
    requires { length out.old + 12 ≤ ROW }
    ensures { out.new ≡ out.old ++ bytes_of_number 12 0 }
{
    out.put(&[0; 12]);
}

/// The bytes of the auxiliary entry of a weak external. Constant time.
#[tactic(auto, unfolding(crate::specs::WeakAux::weak_aux_bytes))]
pub fn pack_weak_aux(shape: Shape, aux: &WeakAux) -> Packed
    ensures { result ≡ weak_aux_bytes shape aux.now }
{
    let mut out = Packed::new();
    out.put_u32(aux.TagIndex);
    out.put_u32(aux.Characteristics);
    match shape {
        Shape::Usual => put_ten(&mut out),
        Shape::Big => put_twelve(&mut out),
    }
    out
}
