//! The text of exports.
ghost use Rattle.std.specs.Prelude.{◌≡◌, ◌++◌, ◌<◌, codes, length, OnOk, string_bytes};
ghost use Rattle.std.specs.Fmt.{decimal};
ghost use Rattle.oc_base.specs.Formats.{word_for};
ghost use Rattle.oc_linking.specs.Linking.{Address};
ghost use Rattle.oc_neutral.specs.Faces.{shown_symbols};
ghost use Rattle.oc_place.specs.Indexes.{IsIndex};
ghost use Rattle.oc_place.specs.Placings.{IsPlacingOf};
ghost use Rattle.oc_place.specs.Written.{names_of};
ghost use Rattle.oc_link.specs.Pieces as pieces;
ghost use Rattle.oc_link.specs.Texts as texts;

use crate::discarded::{is_fallback_gone, is_gone};
use crate::spots::spot_of;
use oc_base::{NoMemory, word_of};
use oc_dump::{put_hex, put_name};
use oc_linking::Binding;
use oc_neutral::Neutral;
use oc_place::{NamedSymbol, Placements, index_of};
use std::alloc::Global;

// puts ` NAME` and a newline
fn put_end(out: &mut String, name: &[u8]) -> Result<(), NoMemory>
    ensures { OnOk result (string_bytes out.new ≡ string_bytes out.old ++ texts.end_text name.now) }
{
    out.push_str(" ")?;
    put_name(out, name)?;
    out.push_str("\n")?;
    Ok(())
}

// puts the address of a name
fn put_address(
    out: &mut String,
    object: &Neutral,
    address: u64,
    name: &[u8],
) -> Result<(), NoMemory>
    ensures { OnOk result (string_bytes out.new ≡ string_bytes out.old ++ texts.export_text (word_for object.now.format) name.now (Address address)) }
{
    out.push_str("export ")?;
    put_hex(out, word_of(object.format()), address)?;
    put_end(out, name)
}

// puts the size of a common
fn put_size(out: &mut String, size: u64, name: &[u8]) -> Result<(), NoMemory>
    ensures { OnOk result (string_bytes out.new ≡ string_bytes out.old ++ (codes "common " ++ decimal size ++ texts.end_text name.now)) }
{
    write!(out, "common {size}")?;
    put_end(out, name)
}

// puts what a symbol exports; nothing where it is lost, or exports nothing
fn put_symbol(
    out: &mut String,
    object: &Neutral,
    placed: &Placements,
    k: u32,
) -> Result<(), NoMemory>
    requires there { k < length object.now.symbols }
    requires placing { IsPlacingOf object.now placed.now }
    ensures { OnOk result (string_bytes out.new ≡ string_bytes out.old ++ pieces.symbol_text_of object.now placed.now k) }
{
    object.is_object();
    let symbol = object.symbol(k);
    match symbol.binding {
        Binding::Local(_) => Ok(()),
        Binding::Undefined => Ok(()),
        Binding::Common { size, .. } => put_size(out, size, symbol.name.as_slice()),
        Binding::Global(value) => {
            if is_gone(object, placed, value) {
                return Ok(());
            }
            let spot = spot_of(object, placed, k);
            put_address(out, object, spot.address, symbol.name.as_slice())
        }
        Binding::Weak(fallback) => {
            if is_fallback_gone(object, placed, fallback) {
                return Ok(());
            }
            let spot = spot_of(object, placed, k);
            put_address(out, object, spot.address, symbol.name.as_slice())
        }
    }
}

// puts what the symbols of these names export
fn put_names(
    out: &mut String,
    object: &Neutral,
    placed: &Placements,
    names: &[NamedSymbol<'_>],
) -> Result<(), NoMemory>
    requires index { IsIndex (names_of (shown_symbols object.now)) names.now }
    requires placing { IsPlacingOf object.now placed.now }
    ensures { OnOk result (string_bytes out.new ≡ string_bytes out.old ++ pieces.names_text_of object.now placed.now names.now) }
{
    for named in names {
        put_symbol(out, object, placed, named.at)?;
    }
    Ok(())
}

/// Puts what all symbols export, in the order of their names. Time is that of a sort of the names;
/// takes memory for a slice and a number of each beside the text.
pub(crate) fn put_exports(
    alloc: Global,
    out: &mut String,
    object: &Neutral,
    placed: &Placements,
) -> Result<(), NoMemory>
    requires { IsPlacingOf object.now placed.now }
    ensures { OnOk result (string_bytes out.new ≡ string_bytes out.old ++ pieces.exports_text_of object.now placed.now) }
{
    object.is_object();
    let names = index_of(alloc, object)?;
    put_names(out, object, placed, &names)?;
    Ok(())
}
