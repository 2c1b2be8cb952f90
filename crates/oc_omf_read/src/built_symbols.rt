//! The symbols of the object.
ghost use Rattle.std.specs.Prelude.{◌≡◌, ◌+◌, ◌<◌, None, OnOk, length};
ghost use Rattle.oc_linking.specs.FirstFault.{first_fault};
ghost use Rattle.oc_omf.specs.Entries.{entries_in};
ghost use Rattle.oc_omf.specs.SymbolFaults.{symbol_stages};
ghost use Rattle.oc_omf_read.specs.Built as built;
ghost use Rattle.oc_omf_read.specs.Declarations.{declarations_in};
ghost use Rattle.oc_omf_read.specs.Mentioned.{HasDeclarations};

use crate::bindings::symbol_of;
use crate::mentioned::Mentions;
use oc_base::NoMemory;
use oc_neutral::Builder;
use oc_omf::Module;
use std::alloc::Global;

// adds symbol `k`
fn add_symbol(
    alloc: Global,
    omf: &Module,
    mentions: &Mentions,
    builder: &mut Builder,
    k: usize,
) -> Result<(), NoMemory>
    requires clean { first_fault (symbol_stages (entries_in omf.now)) ≡ None }
    requires declarations { HasDeclarations (declarations_in (entries_in omf.now)) mentions.now }
    requires there { k < length mentions.now.symbols.items }
    requires before { builder.old ≡ built.symboled (entries_in omf.now) k }
    ensures { OnOk result (builder.new ≡ built.symboled (entries_in omf.now) (k + 1)) }
{
    omf.is_module();
    let symbol = symbol_of(alloc, &mentions.symbols[k], k as u32)?;
    builder.add_new_symbol(symbol)?;
    Ok(())
}

/// Adds the symbols. `NoMemory` where memory ran out. Linear in the symbols and their names.
pub(crate) fn add_symbols(
    alloc: Global,
    omf: &Module,
    mentions: &Mentions,
    builder: &mut Builder,
) -> Result<(), NoMemory>
    requires clean { first_fault (symbol_stages (entries_in omf.now)) ≡ None }
    requires declarations { HasDeclarations (declarations_in (entries_in omf.now)) mentions.now }
    requires before { builder.old ≡ built.symboled (entries_in omf.now) 0 }
    ensures { OnOk result (builder.new ≡ built.started omf.now) }
{
    for k in 0..mentions.symbols.len() {
        add_symbol(alloc, omf, mentions, builder, k)?;
    }
    Ok(())
}
