//! Small objects of one section, from which other tests begin.
ghost use Rattle.std.specs.Prelude.{◌≡◌, ◌<◌, ◌≤◌, ◌^◌, Bool, false, [], ◌∷◌, IfOk, OnOk, length};
ghost use Rattle.oc_neutral.specs.Invariants.{HasItsBytes, is_strong};
ghost use Rattle.tests_object.specs.Small.{IsAlone, IsBare, IsPlain, Speaks};

use oc_base::{Bytes, Format, NoMemory};
use oc_neutral::{
    Binding, BuildFault, Builder, Kind, Mark, Section, Symbol, Visibility, are_bytes,
};
use std::alloc::Global;
use std::process::Abort;

/// A section of these bytes of code, at least four.
pub(crate) fn code(alloc: Global, bytes: &[u8]) -> Result<Section, NoMemory>
    requires least { 4 ≤ length bytes.now }
    requires most { length bytes.now < 2 ^ 31 }
    ensures bytes { IfOk result HasItsBytes }
    ensures alone { IfOk result IsAlone }
{
    Ok(Section {
        name: Bytes::from_slice(alloc, b".text")?,
        kind: Kind::Code,
        align: 16,
        size: bytes.len() as u32,
        bytes: Bytes::from_slice(alloc, bytes)?,
        tag: 6,
        number: 1,
        group: None,
    })
}

/// A symbol of that name, binding and number, of which nothing else is given.
pub(crate) fn plain(
    alloc: Global,
    name: &[u8],
    binding: Binding,
    number: u32,
) -> Result<Symbol, NoMemory>
    requires { 0 < length name.now }
    ensures { (strong : Bool) → Speaks strong binding → IfOk result (IsPlain strong) }
{
    are_bytes(name);
    Ok(Symbol {
        name: Bytes::from_slice(alloc, name)?,
        binding,
        mark: Mark::NoType,
        vis: Visibility::Default,
        size: 0,
        pinned: false,
        number,
    })
}

/// An object of that section so far.
pub(crate) fn begun(alloc: Global, format: Format, section: Section) -> Result<Builder, BuildFault>
    requires bytes { HasItsBytes section }
    requires alone { IsAlone section }
    ensures bare { IfOk result (λ b. IsBare false b.object) }
    ensures none { IfOk result (λ b. b.object.symbols ≡ []) }
    ensures section { IfOk result (λ b. b.object.sections ≡ section ∷ []) }
    ensures format { IfOk result (λ b. b.object.format ≡ format) }
{
    let mut builder = Builder::new(alloc, format);
    builder.add_section(section)?;
    Ok(builder)
}

// whether a symbol can be a fallback
fn can_be_named(binding: Binding) -> bool
    ensures { result ≡ is_strong binding }
{
    match binding {
        Binding::Global(_) | Binding::Undefined | Binding::Common { .. } => true,
        Binding::Local(_) | Binding::Weak(_) => false,
    }
}

/// Adds the first symbol, and gives whether it is strong.
pub(crate) fn add_first(builder: &mut Builder, symbol: Symbol) -> Result<bool, BuildFault>
    requires bare { IsBare false builder.old.object }
    requires none { builder.old.object.symbols ≡ [] }
    requires plain { IsPlain false symbol }
    ensures bare { IfOk result (λ strong. IsBare strong builder.new.object) }
    ensures one { OnOk result (length builder.new.object.symbols ≡ 1) }
    ensures sections { OnOk result (builder.new.object.sections ≡ builder.old.object.sections) }
    ensures format { OnOk result (builder.new.object.format ≡ builder.old.object.format) }
{
    let strong = can_be_named(symbol.binding);
    builder.add_symbol(symbol)?;
    Ok(strong)
}

/// Adds a further symbol, one of fewer than nine, to those of which the first may be strong.
pub(crate) fn add_symbol(
    rt: &impl Abort,
    builder: &mut Builder,
    strong: bool,
    symbol: Symbol,
) -> Result<(), BuildFault>
    requires bare { IsBare strong builder.old.object }
    requires plain { IsPlain strong symbol }
    ensures { OnOk result (IsBare strong builder.new.object) }
{
    let count = builder.symbol_count();
    assert!(rt; count < 9);
    builder.add_symbol(symbol)?;
    Ok(())
}
