//! Sections of which a linker keeps one copy: what their own symbols say.
ghost use Rattle.std.specs.Prelude.{◌≡◌, ◌+◌, ◌<◌, length, None, Some};
ghost use Rattle.std.specs.Option.{option_map};
ghost use Rattle.oc_coff.specs.Comdat as comdat;
ghost use Rattle.oc_coff.specs.Entries as entries;
ghost use Rattle.oc_coff.specs.SectionFaults as rules;
ghost use Rattle.oc_coff.specs.Tables as tables;
ghost use Rattle.oc_coff.specs.Files as files;
ghost use Rattle.oc_coff_judge.specs.Numbered as numbered;

use oc_coff::{
    Coff, IMAGE_COMDAT_SELECT_ANY, IMAGE_COMDAT_SELECT_ASSOCIATIVE,
    IMAGE_COMDAT_SELECT_NODUPLICATES, IMAGE_SYM_CLASS_STATIC, IMAGE_SYM_SECTION_MAX_EX, SectionAux,
    SymbolEntry,
};

/// Whether a symbol has a section of the file. Constant time.
pub(crate) fn has_section(s: &SymbolEntry) -> bool
    ensures { result ≡ entries.has_section s.now }
{
    1 <= s.SectionNumber && s.SectionNumber <= IMAGE_SYM_SECTION_MAX_EX
}

// what the first auxiliary entry of entry `j` says of a section, where the table has it
#[tactic(auto, using(crate::proofs::AuxLemmas::aux_none, crate::proofs::AuxLemmas::aux_past, crate::proofs::AuxLemmas::aux_there))]
fn definition_behind(coff: &Coff, j: u32) -> Option<SectionAux>
    requires { j < length (files.tables_in coff.now).entries }
    ensures { result ≡ option_map (λ (x : tables.Slot). x.section) (numbered.entry_by coff.now j).aux }
{
    coff.is_headed();
    let count = coff.entry_count();
    if coff.symbol(j).NumberOfAuxSymbols == 0 {
        return None;
    }
    if j + 1 >= count {
        return None;
    }
    Some(coff.section_aux(j + 1))
}

/// What a section's own symbol says of it, where entry `j` is one. Constant time.
#[tactic(auto, unfolding(crate::specs::Numbered::entry_by))]
pub(crate) fn own_definition(coff: &Coff, j: u32) -> Option<SectionAux>
    requires { j < length (files.tables_in coff.now).entries }
    ensures { result ≡ comdat.own_definition (numbered.entry_by coff.now j) }
{
    let s = coff.symbol(j);
    if s.StorageClass != IMAGE_SYM_CLASS_STATIC || s.Value != 0 {
        return None;
    }
    definition_behind(coff, j)
}

/// Whether that selection is declared for the copies of a section. Constant time.
pub(crate) fn selects(selection: u8, d: Option<SectionAux>) -> bool
    ensures { result ≡ comdat.selects selection d }
{
    match d {
        Some(aux) => aux.Selection == selection,
        None => false,
    }
}

/// Whether what is declared for the copies of a section is known. Constant time.
pub(crate) fn is_known(d: Option<SectionAux>) -> bool
    ensures { result ≡ rules.is_known d }
{
    selects(IMAGE_COMDAT_SELECT_NODUPLICATES, d)
        || selects(IMAGE_COMDAT_SELECT_ANY, d)
        || selects(IMAGE_COMDAT_SELECT_ASSOCIATIVE, d)
}

/// Whether the section with which section number `k` is kept is another one of the file. Constant
/// time.
pub(crate) fn names_another(coff: &Coff, k: u32, d: Option<SectionAux>) -> bool
    ensures { result ≡ rules.names_another (files.tables_in coff.now) k d }
{
    match d {
        Some(aux) => 1 <= aux.Number && aux.Number <= coff.section_count() && aux.Number != k,
        None => false,
    }
}
