//! Section headers: the conditions that each meets by itself.
ghost use Rattle.std.specs.Prelude.{◌≡◌, ◌+◌, ◌*◌, ◌<◌, ◌^◌, length, is_some, Some};
ghost use Rattle.oc_linking.specs.FirstFault.{first_broken};
ghost use Rattle.oc_base.specs.declared.fault.Phase.TheVariants as phase;
ghost use Rattle.oc_coff.specs.Forms.{header_size};
ghost use Rattle.oc_coff.specs.Sections as sections;
ghost use Rattle.oc_coff.specs.SectionFaults as rules;
ghost use Rattle.oc_coff.specs.Tables as tables;
ghost use Rattle.oc_coff.specs.Files.{tables_in};
ghost use Rattle.oc_coff_judge.specs.Led as led;

use oc_base::{Code, Fault, Phase, u32_in};
use oc_coff::{
    Coff, RELOCATION_SIZE, SECTION_HEADER_SIZE, SectionHeader, Shape, has, header_size,
    is_overflowed, is_stored, kind_by, passes_end, section_name,
};
use oc_neutral::Kind;
use oc_neutral::coff::IMAGE_SCN_CNT_UNINITIALIZED_DATA;

/// A fault of section `i`, counted from 0, at a place. Constant time.
pub(crate) fn section_fault(i: u32, place: u64, code: Code) -> Option<Fault>
    requires low { i < 2 ^ 21 }
    ensures { result ≡ Some (record { phase = phase.Section; index = i + 1; code = code; place = place }) }
{
    Some(Fault {
        phase: Phase::Section,
        index: i + 1,
        code,
        place,
    })
}

/// Where the header of section `i`, counted from 0, lies in the file. Constant time.
pub(crate) fn header_place(shape: Shape, i: u32) -> u64
    ensures { result ≡ header_size shape + SECTION_HEADER_SIZE * i }
{
    header_size(shape) as u64 + SECTION_HEADER_SIZE as u64 * u64::from(i)
}

/// The kind of a section that is carried. Linear in its name.
#[tactic(auto, unfolding(oc_coff::specs::Sections::kind_in))]
pub fn kind_in(coff: &Coff, h: &SectionHeader) -> Option<Kind>
    ensures { result ≡ sections.kind_in (tables_in coff.now).strings h.now }
{
    match section_name(coff.strings(), &h.Name) {
        Some(name) => kind_by(name, h.Characteristics),
        None => None,
    }
}

/// Whether section `i`, counted from 0, is carried. Linear in its name.
pub fn is_carried(coff: &Coff, i: u32) -> bool
    requires { i < length (tables_in coff.now).sections }
    ensures { result ≡ is_some (led.section_at (tables_in coff.now) i) }
{
    kind_in(coff, &coff.section(i)).is_some()
}

/// The fault of the conditions on the bytes of a section of that kind. Constant time.
#[tactic(auto, unfolding(oc_coff::specs::Tables::tables_of))]
pub(crate) fn raw_fault(coff: &Coff, i: u32, h: &SectionHeader, kind: Option<Kind>) -> Option<Fault>
    requires low { i < 2 ^ 21 }
    requires kind { kind ≡ sections.kind_in (tables_in coff.now).strings h.now }
    ensures { result ≡ first_broken (rules.raw_conditions coff.now.bytes (tables_in coff.now) (i + 1, tables.section_table coff.now.bytes h.now) h.now) }
{
    let zeros = has(h.Characteristics, IMAGE_SCN_CNT_UNINITIALIZED_DATA);
    if !zeros && h.SizeOfRawData != 0 && h.PointerToRawData == 0 {
        return section_fault(i, header_place(coff.shape(), i), Code::BadTable);
    }
    let (at, size) = (u64::from(h.PointerToRawData), u64::from(h.SizeOfRawData));
    if is_stored(kind, h) && passes_end(coff.file(), at, size) {
        return section_fault(i, at, Code::Short);
    }
    None
}

/// The fault of the conditions on the relocation table of a section. Constant time.
#[tactic(auto, unfolding(oc_coff::specs::Tables::tables_of))]
pub(crate) fn table_fault(coff: &Coff, i: u32, h: &SectionHeader) -> Option<Fault>
    requires low { i < 2 ^ 21 }
    ensures { result ≡ first_broken (rules.table_conditions coff.now.bytes (tables_in coff.now) (i + 1, tables.section_table coff.now.bytes h.now) h.now) }
{
    let at = u64::from(h.PointerToRelocations);
    if !is_overflowed(h) {
        let size = RELOCATION_SIZE as u64 * u64::from(h.NumberOfRelocations);
        if passes_end(coff.file(), at, size) {
            return section_fault(i, at, Code::Short);
        }
        return None;
    }
    if passes_end(coff.file(), at, RELOCATION_SIZE as u64) {
        return section_fault(i, at, Code::Short);
    }
    let count = u32_in(coff.file(), at as usize);
    if count == 0 {
        return section_fault(i, header_place(coff.shape(), i), Code::BadTable);
    }
    if passes_end(coff.file(), at, RELOCATION_SIZE as u64 * u64::from(count)) {
        return section_fault(i, at, Code::Short);
    }
    None
}
