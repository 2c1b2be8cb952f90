//! The keys of groups, and the symbols that are signatures of groups without a key of their own.
ghost use Rattle.std.specs.Prelude.{◌≡◌, ◌+◌, ◌*◌, ◌<◌, ◌≤◌, ◌&&◌, ◌||◌, [], length, map, nat_eq, bytes_eq, is_some, true, false, None, Some, IfOk, MatchOption};
ghost use Rattle.std.specs.List.{range_with_len};
ghost use Rattle.std.specs.Option.{option_map_or};
ghost use Rattle.oc_strings.specs.Repeats as repeats;
ghost use Rattle.oc_elf.specs.Frames.{header_at};
ghost use Rattle.oc_elf.specs.Groups as groups;
ghost use Rattle.oc_elf_judge.specs.Known.{IsSymtab, AreSigned};
ghost use Rattle.oc_elf_judge.specs.Marks.{AreMarks};
ghost use Rattle.oc_elf.specs.SectionRules.{section_stage};
ghost use Rattle.oc_elf.specs.SymbolRules as rules;
ghost use Rattle.oc_elf.specs.Tables.{symbol_count};
ghost use Rattle.oc_linking.specs.FirstFault.{stage_fault};

use crate::groups::group_word;
use crate::sections::section_name;
use crate::stood::{is_repeated, name_at};
use crate::symbols::{self, entry_of, is_section_symbol, is_sectional, symbol_count};
use oc_base::NoMemory;
use oc_elf::{Frame, GRP_COMDAT, SHT_GROUP, Shdr};
use oc_shelf::Slots;
use oc_strings::first_repeat;
use std::alloc::Global;
use std::collections::BTreeMap;

/// Whether header `g` is a one-definition group, where the section headers have no fault. Constant
/// time.
pub fn is_comdat(frame: &Frame, g: u32) -> bool
    requires sections { stage_fault (section_stage frame.now) ≡ None }
    ensures { result ≡ groups.is_comdat frame.now g }
{
    frame.is_frame();
    let s = frame.header(g);
    if s.sh_type != SHT_GROUP {
        return false;
    }
    group_word(frame, &s, 0) == GRP_COMDAT
}

/// The key of header `g`, where it is a one-definition group and its signature has a name. Linear in
/// the names of the signature and of its section.
#[tactic(auto, unfolding(oc_elf::specs::Groups::key_of))]
pub fn comdat_key<'a>(frame: &Frame<'a>, table: &Shdr, g: u32) -> Option<&'a [u8]>
    requires sections { stage_fault (section_stage frame.now) ≡ None }
    requires table { IsSymtab frame.now table.now }
    requires signed { AreSigned frame.now }
    ensures { MatchOption result (groups.comdat_key frame.now g ≡ None) (λ key. groups.comdat_key frame.now g ≡ Some key.now) }
{
    if !is_comdat(frame, g) {
        return None;
    }
    let s = entry_of(frame, table, frame.header(g).sh_info);
    match symbols::name_at(frame, table, &s) {
        Some(name) => {
            if is_section_symbol(&s) && name.is_empty() && is_sectional(&s) {
                Some(section_name(frame, &frame.header(s.st_shndx)))
            } else {
                Some(name)
            }
        }
        None => None,
    }
}

// the keys of all headers
fn comdat_keys<'a>(
    alloc: Global,
    frame: &Frame<'a>,
    table: &Shdr,
) -> Result<Vec<Option<&'a [u8]>>, NoMemory>
    requires sections { stage_fault (section_stage frame.now) ≡ None }
    requires table { IsSymtab frame.now table.now }
    requires signed { AreSigned frame.now }
    ensures { IfOk result (λ keys. repeats.names_of keys.items ≡ groups.comdat_keys frame.now) }
{
    let count = frame.count();
    let mut keys = Vec::with_capacity(alloc, count as usize)?;
    for g in 0..count {
        keys.push(comdat_key(frame, table, g))?;
    }
    Ok(keys)
}

// whether a group has no key of its own, given whether its key occurred before
fn is_bad_key(keys: &[Option<&[u8]>], again: bool, g: u32) -> bool
    requires there { g < length keys.now }
    requires again { again ≡ is_some (repeats.repeat_at (repeats.names_of keys.now) g) }
    ensures { result ≡ (option_map_or (λ key. bytes_eq key []) (repeats.name_at (repeats.names_of keys.now) g) false
        || is_some (repeats.repeat_at (repeats.names_of keys.now) g)) }
{
    match name_at(keys, g as usize) {
        Some(key) => key.is_empty() || again,
        None => again,
    }
}

// marks the signature of header `g`, where that is a one-definition group without a key of its own
fn mark(frame: &Frame, keys: &[Option<&[u8]>], again: bool, marks: &mut Slots, g: u32)
    requires sections { stage_fault (section_stage frame.now) ≡ None }
    requires signed { AreSigned frame.now }
    requires there { g < length frame.now.headers }
    requires keys { repeats.names_of keys.now ≡ groups.comdat_keys frame.now }
    requires again { again ≡ is_some (repeats.repeat_at (repeats.names_of keys.now) g) }
    requires marks { AreMarks frame.now g marks.old }
    ensures { AreMarks frame.now (g + 1) marks.new }
{
    frame.is_frame();
    if !is_comdat(frame, g) {
        return;
    }
    if !is_bad_key(keys, again, g) {
        return;
    }
    marks.fill(frame.header(g).sh_info, g);
}

/// The signatures of one-definition groups that have no key, or the key of one before, each with one
/// such group.
///
/// `NoMemory` where memory ran out. The time is that of `first_repeat` over the keys; where a key
/// repeats, so that the file is refused, each is also looked up in an ordered map.
pub(crate) fn bad_signatures(alloc: Global, frame: &Frame, table: &Shdr) -> Result<Slots, NoMemory>
    requires sections { stage_fault (section_stage frame.now) ≡ None }
    requires table { IsSymtab frame.now table.now }
    requires signed { AreSigned frame.now }
    ensures { IfOk result (λ marks. AreMarks frame.now (length frame.now.headers) marks) }
{
    let keys = comdat_keys(alloc, frame, table)?;
    let found = first_repeat(alloc, keys.as_slice())?;
    let mut marks = Slots::empty(alloc, symbol_count(frame, table))?;
    let mut stood = BTreeMap::new(alloc);
    for g in 0..frame.count() {
        let again = is_repeated(&mut stood, keys.as_slice(), found, g)?;
        mark(frame, keys.as_slice(), again, &mut marks, g);
    }
    Ok(marks)
}
