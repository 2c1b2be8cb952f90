//! The relocations of the object.
ghost use Rattle.std.specs.Prelude.{◌≡◌, ◌+◌, ◌<◌, ◌≤◌, ◌^◌, false, length, pos, neg_ℤ, ◌+ℤ◌, ◌-ℤ◌, ◌≤ℤ◌, IfOk};
ghost use Rattle.std.specs.List.Sorted.{IsPermutation};
ghost use Rattle.std.specs.Option.{option_map_or};
ghost use Rattle.oc_macho_read.specs.declared.aims.Aim.{Aim};
ghost use Rattle.oc_base.specs.Numbers.{number_at};
ghost use Rattle.oc_linking.specs.Fits.{bytes_of};
ghost use Rattle.oc_algebra.specs.Fields.{extended};
ghost use Rattle.oc_algebra.specs.Residues.{reduced_number};
ghost use Rattle.oc_shelf.specs.Reading.Collected.{collected};
ghost use Rattle.oc_shelf.specs.Reading.Slots.{AreSlots};
ghost use Rattle.oc_macho.specs.Entries as entries;
ghost use Rattle.oc_macho.specs.Framed.{IsTable, table_at};
ghost use Rattle.oc_macho_judge.specs.Holders.{AreHolders};
ghost use Rattle.oc_macho.specs.RelocationFaults as rules;
ghost use Rattle.oc_macho.specs.Sections as sections;
ghost use Rattle.oc_macho_read.specs.Built.{AreRead, symbol_position};
ghost use Rattle.oc_macho_read.specs.Given as given;

use crate::aims::{Aim, RelocContext, aim_of, taken_aim};
use oc_algebra::{extend, field_at, reduce};
use oc_base::{NoMemory, Word};
use oc_macho::{Frame, Item, Meaning, SectionHeader, meaning_of};
use oc_macho_judge::{begins_behind, item_of};
use oc_neutral::{Form, Less, Reloc, Width};
use oc_shelf::{PlacedEntry, sort_by_place};
use std::alloc::Global;

// the number in a field
fn number_in(contents: &[u8], at: u32, width: Width) -> i64
    requires { at + bytes_of width ≤ length contents.now }
    ensures { result ≡ extended width (number_at contents.now at (bytes_of width)) }
{
    extend(width, field_at(contents, at as usize, width))
}

// the address of the file that a field counts in; 0 where it counts in none
fn counted(aim: &Aim) -> u64
    ensures { result ≡ given.counted_by aim.now }
{
    aim.counted.unwrap_or(0)
}

// what the file itself gives to what is taken, of a field at that offset of a section that has that
// address in the file
fn given_back(address: u64, at: u32, meaning: &Meaning, target: &Aim, taken: Option<Aim>) -> u128
    ensures back { result ≡ given.given_meant address at meaning.now target.now taken }
    ensures small { result < 2 ^ 65 }
{
    let behind = meaning.behind;
    match meaning.form.less {
        Less::Place => {
            if meaning.by_move || target.counted.is_some() {
                u128::from(address) + u128::from(at) + u128::from(behind)
            } else {
                0
            }
        }
        Less::Section(_) => match taken {
            Some(aim) => u128::from(counted(&aim)),
            None => 0,
        },
        Less::Zero | Less::GotBase | Less::ImageBase | Less::Home => 0,
    }
}

// how far what is taken is beyond the start of its section
fn beyond(taken: Option<Aim>) -> u64
    ensures { result ≡ option_map_or (λ (a : Aim). a.beyond) taken 0 }
{
    match taken {
        Some(aim) => aim.beyond,
        None => 0,
    }
}

// what is taken: of a pair, the section that its entries say
fn less_of(less: Less, taken: Option<Aim>) -> Less
    ensures { result ≡ given.less_meant less taken }
{
    match less {
        Less::Section(_) => Less::Section(match taken {
            Some(aim) => aim.section,
            None => 0,
        }),
        Less::Zero => Less::Zero,
        Less::Place => Less::Place,
        Less::GotBase => Less::GotBase,
        Less::ImageBase => Less::ImageBase,
        Less::Home => Less::Home,
    }
}

// a field: the address that the file gives to its section, its offset there, and the number in it
#[derive(Clone, Copy)]
struct Site {
    address: u64,
    at: u32,
    number: i64,
}

// a number, less and more
fn shifted(number: i64, less: u64, more: u128) -> i128
    requires { more < 2 ^ 65 }
    ensures value { result ≡ number -ℤ pos less +ℤ pos more }
    ensures low { neg_ℤ (pos (2 ^ 66)) ≤ℤ result }
    ensures high { result ≤ℤ pos (2 ^ 66) }
{
    i128::from(number) - i128::from(less) + more as i128
}

// a number, less another, reduced
fn reduced_less(word: Word, number: i128, less: u128) -> i64
    requires small { less < 2 ^ 65 }
    requires low { neg_ℤ (pos (2 ^ 66)) ≤ℤ number }
    requires high { number ≤ℤ pos (2 ^ 66) }
    ensures { result ≡ reduced_number word (number -ℤ pos less) }
{
    reduce(word, number - less as i128)
}

// the addend of a field with that meaning
fn addend_of(word: Word, site: Site, meaning: &Meaning, target: &Aim, taken: Option<Aim>) -> i64
    ensures { result ≡ given.addend_meant word site.address site.at site.number meaning.now target.now taken }
{
    let back = given_back(site.address, site.at, meaning, target, taken);
    let added = shifted(site.number, counted(target), back);
    let behind = u128::from(meaning.behind);
    reduced_less(word, added, u128::from(beyond(taken)) + behind)
}

// the relocation of a field with that meaning
fn reloc_as(word: Word, site: Site, meaning: &Meaning, target: &Aim, taken: Option<Aim>) -> Reloc
    ensures { result ≡ given.reloc_meant word site.address site.at site.number meaning.now target.now taken }
{
    Reloc {
        target: target.target,
        form: Form {
            less: less_of(meaning.form.less, taken),
            ..meaning.form
        },
        addend: addend_of(word, site, meaning, target, taken),
        hint: meaning.hint,
    }
}

// the relocation of the entries of a field of section `i` with that meaning
fn reloc_with(
    frame: &Frame,
    known: &RelocContext,
    i: u32,
    h: &SectionHeader,
    item: &Item,
    meaning: &Meaning,
) -> Reloc
    requires read { AreRead frame.now }
    requires table { IsTable frame.now i h.now }
    requires positions { AreSlots (symbol_position frame.now known.now.keep) (length frame.now.symbols) known.now.positions.now }
    requires holders { AreHolders frame.now known.now.holders.now }
    requires aimed { given.AreAimed frame.now item.now }
    requires stored { sections.is_zerofill h.now ≡ false }
    requires inside { item.now.first.r_address + bytes_of meaning.now.form.width ≤ h.now.size }
    ensures { result ≡ given.reloc_of_item frame.now known.now.keep i (table_at frame.now i) item.now meaning.now }
{
    let word = frame.word();
    let at = item.first.r_address;
    let site = Site {
        address: h.addr,
        at,
        number: number_in(frame.raw(i, h), at, meaning.form.width),
    };
    let target = aim_of(frame, known, item.target(word));
    let taken = taken_aim(frame, known, item);
    reloc_as(word, site, meaning, &target, taken)
}

/// The relocation of the entries of a field of section `i`, which has that header; nothing where
/// their type is not known. The time is that of `aim_of`.
pub(crate) fn reloc_for(
    frame: &Frame,
    known: &RelocContext,
    i: u32,
    h: &SectionHeader,
    item: &Item,
) -> Option<Reloc>
    requires read { AreRead frame.now }
    requires table { IsTable frame.now i h.now }
    requires positions { AreSlots (symbol_position frame.now known.now.keep) (length frame.now.symbols) known.now.positions.now }
    requires holders { AreHolders frame.now known.now.holders.now }
    requires aimed { given.AreAimed frame.now item.now }
    requires inside { rules.is_outside h.now item.now ≡ false }
    ensures { result ≡ given.reloc_by frame.now known.now.keep i (table_at frame.now i) item.now }
{
    match meaning_of(frame.word(), &item.first) {
        Some(meaning) => Some(reloc_with(frame, known, i, h, item, &meaning)),
        None => None,
    }
}

// the field that begins with entry `k`, by its offset, given whether one does
fn placed_at(frame: &Frame, i: u32, h: &SectionHeader, k: u32, begins: bool) -> Option<PlacedEntry>
    requires table { IsTable frame.now i h.now }
    requires there { k < h.now.nreloc }
    requires begins { begins ≡ entries.begins frame.now.word (table_at frame.now i).relocs k }
    ensures { result ≡ given.placed frame.now (table_at frame.now i) k }
{
    if !begins {
        return None;
    }
    let item = item_of(frame, i, h, k);
    Some(PlacedEntry {
        place: item.first.r_address.into(),
        index: k,
    })
}

// the fields of section `i`, each by its offset
fn gathered(
    alloc: Global,
    frame: &Frame,
    i: u32,
    h: &SectionHeader,
) -> Result<Vec<PlacedEntry>, NoMemory>
    requires { IsTable frame.now i h.now }
    ensures { IfOk result (λ fields. fields.items ≡ collected (given.placed frame.now (table_at frame.now i)) h.now.nreloc) }
{
    let mut fields = Vec::with_capacity(alloc, h.nreloc as usize)?;
    let mut begins = true;
    for k in 0..h.nreloc {
        if let Some(field) = placed_at(frame, i, h, k, begins) {
            fields.push(field)?;
        }
        begins = begins_behind(frame, i, h, k, begins);
    }
    Ok(fields)
}

/// The fields of section `i`, which has that header, each by its offset and the number of its first
/// entry, in the order of the offsets, in which they are added in constant time each. `NoMemory`
/// where memory ran out. The time is that of n log2(n) steps for n entries.
pub(crate) fn in_order(
    alloc: Global,
    frame: &Frame,
    i: u32,
    h: &SectionHeader,
) -> Result<Vec<PlacedEntry>, NoMemory>
    requires { IsTable frame.now i h.now }
    ensures { IfOk result (λ fields. IsPermutation (collected (given.placed frame.now (table_at frame.now i)) h.now.nreloc) fields.items) }
{
    let mut fields = gathered(alloc, frame, i, h)?;
    sort_by_place(&mut fields);
    Ok(fields)
}
