//! The bindings of symbols.
ghost use Rattle.std.specs.Prelude.{◌≡◌, ◌+◌, ◌<◌, nat_eq, if◌then◌else◌, length, true, None};
ghost use Rattle.std.specs.Option.{option_map};
ghost use Rattle.oc_linking.specs.FirstFault.{stage_fault};
ghost use Rattle.oc_neutral.specs.Powers as powers;
ghost use Rattle.oc_coff.specs.Entries as entries;
ghost use Rattle.oc_coff.specs.Sections as sections;
ghost use Rattle.oc_coff.specs.SymbolFaults.{symbol_stage};
ghost use Rattle.oc_coff.specs.Symbols as symbols;
ghost use Rattle.oc_coff.specs.Tables as tables;
ghost use Rattle.oc_coff.specs.Files as files;
ghost use Rattle.oc_coff.specs.declared.constants.TheConstants.{IMAGE_SYM_CLASS_WEAK_EXTERNAL, IMAGE_SYM_TYPE_FUNCTION};
ghost use Rattle.oc_coff_judge.specs.Found.{ArePositions};
ghost use Rattle.oc_coff_judge.specs.Numbered as numbered;
ghost use Rattle.oc_coff_judge.specs.Tagged.{AreTagged, IsSymbolEntry};

use crate::copies::has_section;
use crate::symbols::name_by;
use crate::tagged::tag_of;
use oc_coff::{
    Coff, IMAGE_SYM_ABSOLUTE, IMAGE_SYM_CLASS_EXTERNAL, IMAGE_SYM_CLASS_LABEL,
    IMAGE_SYM_CLASS_STATIC, IMAGE_SYM_CLASS_WEAK_EXTERNAL, IMAGE_SYM_TYPE_FUNCTION,
    IMAGE_SYM_UNDEFINED, SymbolEntry, WeakAux,
};
use oc_neutral::{Binding, Fallback, Mark, Value};
use oc_shelf::Slots;

// the alignment of a common of that size
fn natural_align(size: u32) -> u32
    ensures { result ≡ powers.natural_align size }
{
    if size <= 1 {
        1
    } else if size <= 2 {
        2
    } else if size <= 4 {
        4
    } else if size <= 8 {
        8
    } else if size <= 16 {
        16
    } else {
        32
    }
}

/// The value of a symbol that is defined, where `positions` has the position of each section among
/// the carried ones, by its number. Constant time.
#[tactic(auto, unfolding(oc_coff::specs::Symbols::value_of))]
pub fn value_of(coff: &Coff, positions: &Slots, s: &SymbolEntry) -> Option<Value>
    requires { ArePositions coff.now positions.now }
    ensures { result ≡ symbols.value_of (sections.sections_in (files.tables_in coff.now)) s.now }
{
    if s.SectionNumber == IMAGE_SYM_ABSOLUTE {
        return Some(Value::Absolute(s.Value.into()));
    }
    match positions.get(s.SectionNumber) {
        Some(section) => Some(Value::Place {
            section,
            offset: s.Value,
        }),
        None => None,
    }
}

// the binding of an EXTERNAL symbol
fn external_binding(coff: &Coff, positions: &Slots, s: &SymbolEntry) -> Option<Binding>
    requires { ArePositions coff.now positions.now }
    ensures { result ≡ symbols.external_binding (sections.sections_in (files.tables_in coff.now)) s.now }
{
    if s.SectionNumber != IMAGE_SYM_UNDEFINED {
        return match value_of(coff, positions, s) {
            Some(value) => Some(Binding::Global(value)),
            None => None,
        };
    }
    if s.Value == 0 {
        return Some(Binding::Undefined);
    }
    Some(Binding::Common {
        size: s.Value.into(),
        align: natural_align(s.Value),
    })
}

/// What the first auxiliary entry of entry `j` says of a default, where the table has it. Constant
/// time.
#[tactic(auto, using(crate::proofs::AuxLemmas::weak_none, crate::proofs::AuxLemmas::weak_past, crate::proofs::AuxLemmas::weak_there))]
pub(crate) fn default_behind(coff: &Coff, j: u32) -> Option<WeakAux>
    requires { j < length (files.tables_in coff.now).entries }
    ensures { result ≡ option_map (λ (x : tables.Slot). x.weak) (numbered.entry_by coff.now j).aux }
{
    coff.is_headed();
    let count = coff.entry_count();
    if coff.symbol(j).NumberOfAuxSymbols == 0 {
        return None;
    }
    if j + 1 >= count {
        return None;
    }
    Some(coff.weak_aux(j + 1))
}

// what a tagged STATIC symbol of that value stands for
fn fallback_at(value: Value) -> Fallback
    ensures { result ≡ symbols.fallback_at value }
{
    match value {
        Value::Place { section, offset } => Fallback::Place { section, offset },
        Value::Absolute(_) => Fallback::Zero,
    }
}

/// What a symbol is declared to name. Constant time.
pub fn mark_of(s: &SymbolEntry) -> Mark
    ensures { result ≡ (if nat_eq s.now.Type IMAGE_SYM_TYPE_FUNCTION then Mark.Function else Mark.NoType) }
{
    if s.Type == IMAGE_SYM_TYPE_FUNCTION {
        Mark::Function
    } else {
        Mark::NoType
    }
}

// whether a symbol is a section's own
fn is_section_symbol(s: &SymbolEntry) -> bool
    ensures { result ≡ symbols.is_section_symbol s.now }
{
    s.StorageClass == IMAGE_SYM_CLASS_STATIC
        && s.Value == 0
        && s.NumberOfAuxSymbols != 0
        && has_section(s)
}

// what entry `d`, which is tagged, stands for; a symbol of other files for itself
#[tactic(auto, unfolding(crate::specs::Numbered::entry_by))]
fn fallback_by(coff: &Coff, positions: &Slots, d: u32) -> Option<Fallback>
    requires there { d < length (files.tables_in coff.now).entries }
    requires positions { ArePositions coff.now positions.now }
    ensures { result ≡ symbols.fallback_by (sections.sections_in (files.tables_in coff.now)) (numbered.entry_by coff.now d) }
{
    let s = coff.symbol(d);
    if s.StorageClass == IMAGE_SYM_CLASS_EXTERNAL {
        return Some(Fallback::Name(d));
    }
    match value_of(coff, positions, &s) {
        Some(value) => Some(fallback_at(value)),
        None => None,
    }
}

// the binding of weak external `j`
fn weak_binding(coff: &Coff, positions: &Slots, j: u32) -> Option<Binding>
    requires clean { stage_fault (symbol_stage (files.tables_in coff.now)) ≡ None }
    requires there { j < length (files.tables_in coff.now).entries }
    requires symbol { IsSymbolEntry coff.now j }
    requires weak { entries.is_class IMAGE_SYM_CLASS_WEAK_EXTERNAL (numbered.entry_by coff.now j).symbol ≡ true }
    requires positions { ArePositions coff.now positions.now }
    ensures { result ≡ symbols.weak_binding (sections.sections_in (files.tables_in coff.now)) (entries.entries_in (files.tables_in coff.now))
        (numbered.entry_by coff.now j) }
{
    coff.is_headed();
    match tag_of(coff, j) {
        Some(d) => match fallback_by(coff, positions, d) {
            Some(fallback) => Some(Binding::Weak(fallback)),
            None => None,
        },
        None => None,
    }
}

/// Whether entry `j`, which is that symbol, stands for its place and is not carried. Constant time.
#[tactic(auto, unfolding(crate::specs::Numbered::entry_by))]
pub(crate) fn is_own(tagged: &Slots, j: u32, s: &SymbolEntry) -> bool
    ensures { (file : files.CoffFile) → j < length (files.tables_in file).entries → s.now ≡ (numbered.entry_by file j).symbol
        → AreTagged (files.tables_in file) tagged.now → result ≡ symbols.is_own (entries.entries_in (files.tables_in file)) (numbered.entry_by file j) }
{
    is_section_symbol(s) || s.StorageClass == IMAGE_SYM_CLASS_STATIC && tagged.get(j).is_some()
}

// the binding of entry `j`, which is that symbol, a STATIC one or a LABEL
fn local_binding(
    coff: &Coff,
    positions: &Slots,
    tagged: &Slots,
    j: u32,
    s: &SymbolEntry,
) -> Option<Binding>
    requires there { j < length (files.tables_in coff.now).entries }
    requires symbol { s.now ≡ (numbered.entry_by coff.now j).symbol }
    requires positions { ArePositions coff.now positions.now }
    requires tagged { AreTagged (files.tables_in coff.now) tagged.now }
    ensures { result ≡ symbols.local_binding (sections.sections_in (files.tables_in coff.now)) (entries.entries_in (files.tables_in coff.now))
        (entries.name_of (files.tables_in coff.now).strings (numbered.entry_by coff.now j)) (numbered.entry_by coff.now j) }
{
    if is_own(tagged, j, s) || name_by(coff, s).is_empty() {
        return None;
    }
    match value_of(coff, positions, s) {
        Some(value) => Some(Binding::Local(value)),
        None => None,
    }
}

/// The binding of entry `j`, which is that symbol, where it is carried. Linear in its name.
#[tactic(auto, unfolding(oc_coff::specs::Symbols::binding_of))]
pub fn binding_of(
    coff: &Coff,
    positions: &Slots,
    tagged: &Slots,
    j: u32,
    s: &SymbolEntry,
) -> Option<Binding>
    requires clean { stage_fault (symbol_stage (files.tables_in coff.now)) ≡ None }
    requires there { j < length (files.tables_in coff.now).entries }
    requires numbered { IsSymbolEntry coff.now j }
    requires symbol { s.now ≡ (numbered.entry_by coff.now j).symbol }
    requires positions { ArePositions coff.now positions.now }
    requires tagged { AreTagged (files.tables_in coff.now) tagged.now }
    ensures { result ≡ symbols.binding_of (sections.sections_in (files.tables_in coff.now)) (entries.entries_in (files.tables_in coff.now))
        (entries.name_of (files.tables_in coff.now).strings (numbered.entry_by coff.now j)) (numbered.entry_by coff.now j) }
{
    match s.StorageClass {
        IMAGE_SYM_CLASS_EXTERNAL => external_binding(coff, positions, s),
        IMAGE_SYM_CLASS_WEAK_EXTERNAL => weak_binding(coff, positions, j),
        IMAGE_SYM_CLASS_STATIC | IMAGE_SYM_CLASS_LABEL => {
            local_binding(coff, positions, tagged, j, s)
        }
        _ => None,
    }
}
