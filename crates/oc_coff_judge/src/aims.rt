//! What the symbols of relocation entries stand for.
ghost use Rattle.std.specs.Prelude.{◌≡◌, ◌<◌, length, None, IfOk, slice_index_or};
ghost use Rattle.oc_linking.specs.FirstFault.{stage_fault};
ghost use Rattle.oc_coff.specs.SymbolFaults.{symbol_stage};
ghost use Rattle.oc_coff.specs.Files as files;
ghost use Rattle.oc_coff_judge.specs.Aimed as aimed;
ghost use Rattle.oc_coff_judge.specs.Found.{IsFound};
ghost use Rattle.oc_coff_judge.specs.Numbered.{entry_by};
ghost use Rattle.oc_coff_judge.specs.Tagged.{IsSymbolEntry};

use crate::bindings::{binding_of, is_own, value_of};
use crate::found::Found;
use oc_base::NoMemory;
use oc_coff::Coff;
use oc_neutral::{Binding, Fallback, Value};
use std::alloc::Global;

/// What a field can have of the symbol of its relocation entry.
#[derive(Clone, Copy)]
pub(crate) enum AimKind {
    /// Nothing: no field can name the symbol.
    Nothing,
    /// An address that lies in a section, or may.
    Home,
    /// An address that lies in no section wherever it is placed.
    Homeless,
}

// what a carried symbol stands for
fn aim_bound(binding: Binding) -> AimKind
    ensures { result ≡ aimed.aim_bound binding }
{
    match binding {
        Binding::Local(Value::Absolute(_)) => AimKind::Nothing,
        Binding::Global(Value::Absolute(_)) => AimKind::Homeless,
        Binding::Weak(Fallback::Zero) => AimKind::Homeless,
        Binding::Local(Value::Place { .. })
        | Binding::Global(Value::Place { .. })
        | Binding::Undefined
        | Binding::Common { .. }
        | Binding::Weak(Fallback::Place { .. } | Fallback::Name(_)) => AimKind::Home,
    }
}

// what a symbol of that value that is not carried stands for
fn aim_placed(value: Option<Value>) -> AimKind
    ensures { result ≡ aimed.aim_placed value }
{
    match value {
        Some(Value::Place { .. }) => AimKind::Home,
        Some(Value::Absolute(_)) | None => AimKind::Nothing,
    }
}

// what the symbol of entry `j` stands for; `None` where no entry can name it
#[tactic(auto, unfolding(crate::specs::Numbered::entry_by))]
fn aim_of(coff: &Coff, found: &Found, j: u32) -> Option<AimKind>
    requires clean { stage_fault (symbol_stage (files.tables_in coff.now)) ≡ None }
    requires found { IsFound coff.now found.now }
    requires there { j < length (files.tables_in coff.now).entries }
    requires symbol { IsSymbolEntry coff.now j }
    ensures { result ≡ aimed.aim_for (files.tables_in coff.now) (entry_by coff.now j) }
{
    let s = coff.symbol(j);
    match binding_of(coff, &found.sections, &found.tagged, j, &s) {
        Some(binding) => Some(aim_bound(binding)),
        None => {
            if is_own(&found.tagged, j, &s) {
                Some(aim_placed(value_of(coff, &found.sections, &s)))
            } else {
                None
            }
        }
    }
}

// the same of entry `j`, which may be an auxiliary one
fn numbered_aim(coff: &Coff, found: &Found, j: u32) -> Option<AimKind>
    requires clean { stage_fault (symbol_stage (files.tables_in coff.now)) ≡ None }
    requires found { IsFound coff.now found.now }
    requires there { j < length (files.tables_in coff.now).entries }
    ensures { result ≡ aimed.aim_numbered (files.tables_in coff.now) j }
{
    coff.is_headed();
    match found.starts.get(j) {
        Some(_) => aim_of(coff, found, j),
        None => None,
    }
}

/// What each entry of the symbol table stands for; `None` where no relocation entry can name it.
/// `NoMemory` where memory ran out. Linear in the entries and the names.
pub(crate) fn aims_of(
    alloc: Global,
    coff: &Coff,
    found: &Found,
) -> Result<Vec<Option<AimKind>>, NoMemory>
    requires clean { stage_fault (symbol_stage (files.tables_in coff.now)) ≡ None }
    requires found { IsFound coff.now found.now }
    ensures { IfOk result (λ aims. aims.items ≡ aimed.aims_in (files.tables_in coff.now)) }
{
    let count = coff.entry_count();
    let mut aims = Vec::with_capacity(alloc, count as usize)?;
    for j in 0..count {
        aims.push(numbered_aim(coff, found, j))?;
    }
    Ok(aims)
}

/// What symbol `j` stands for. Constant time.
pub(crate) fn aim_at(aims: &[Option<AimKind>], j: u32) -> Option<AimKind>
    ensures { result ≡ slice_index_or aims.now j None }
{
    match aims.get(j as usize) {
        Some(aim) => *aim,
        None => None,
    }
}
