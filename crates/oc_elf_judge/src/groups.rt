//! Groups of sections, and the conditions on each.
ghost use Rattle.std.specs.Prelude.{◌≡◌, ◌+◌, ◌*◌, ◌<◌, ◌≤◌, ◌||◌, length, nat_eq, nat_le, is_some, true, false, None, IfNone, slice_index_or};
ghost use Rattle.oc_linking.specs.FirstFault.{first_broken};
ghost use Rattle.oc_shelf.specs.Reading.Firsts.{any_upto};
ghost use Rattle.oc_shelf.specs.Reading.Slots.{AreSlots};
ghost use Rattle.oc_elf.specs.declared.constants.TheConstants.{SHT_GROUP};
ghost use Rattle.oc_elf.specs.Frames.{header_at};
ghost use Rattle.oc_elf.specs.Groups as groups;
ghost use Rattle.oc_elf.specs.Sections.{is_type};
ghost use Rattle.oc_elf.specs.SectionRules as rules;
ghost use Rattle.oc_elf.specs.Tables.{entry_count};

use crate::sections::{has_entries, section_fault};
use oc_base::{Code, Fault, u32_in};
use oc_elf::{Frame, GRP_COMDAT, GRP_ENTRY_SIZE, SHT_GROUP, SHT_SYMTAB, Shdr, sym_size};
use oc_shelf::Slots;

/// Word `i` of the contents of a group that lies in the file. Constant time.
pub(crate) fn group_word(frame: &Frame, s: &Shdr, i: u64) -> u32
    requires lies { s.now.sh_offset + s.now.sh_size ≤ length frame.now.file }
    requires there { 4 * i + 4 ≤ s.now.sh_size }
    ensures { result ≡ groups.group_word frame.now s.now i }
{
    frame.is_frame();
    let place = s.sh_offset + GRP_ENTRY_SIZE * i;
    u32_in(frame.file(), place as usize)
}

/// How many members a group has. Constant time.
pub(crate) fn member_count(s: &Shdr) -> u64
    ensures { result ≡ groups.member_count s.now }
{
    (s.sh_size / GRP_ENTRY_SIZE).saturating_sub(1)
}

// how many entries a symbol table has
fn entry_count(frame: &Frame, table: &Shdr) -> u64
    ensures { result ≡ entry_count frame.now table.now }
{
    table.sh_size / sym_size(frame.word())
}

// whether a group has whole words, at least one, and a symbol of a symbol table for a signature
#[tactic(auto, unfolding(oc_elf::specs::SectionRules::is_good_group))]
fn is_good_group(frame: &Frame, s: &Shdr) -> bool
    ensures { result ≡ rules.is_good_group frame.now s.now }
{
    let table = frame.header(s.sh_link);
    has_entries(GRP_ENTRY_SIZE, s)
        && GRP_ENTRY_SIZE <= s.sh_size
        && table.sh_type == SHT_SYMTAB
        && s.sh_info != 0
        && u64::from(s.sh_info) < entry_count(frame, &table)
}

// whether no section can be a member by that number, or one is already, by what is known of owners
fn is_refused(frame: &Frame, owners: &Slots, member: u32) -> bool
    ensures { result ≡ (nat_eq member 0 || nat_le (length frame.now.headers) member || is_some (slice_index_or owners.now member None)) }
{
    member == 0 || frame.count() <= member || owners.get(member).is_some()
}

// records the members of the group with header `k`, in their order, until one is bad; whether one
// is
fn take_members(frame: &Frame, owners: &mut Slots, k: u32, s: &Shdr) -> bool
    requires lies { s.now.sh_offset + s.now.sh_size ≤ length frame.now.file }
    requires here { s.now ≡ header_at frame.now.headers k }
    requires group { is_type SHT_GROUP s.now ≡ true }
    requires owners { AreSlots (groups.owner_among frame.now k) (length frame.now.headers) owners.old }
    ensures verdict { result ≡ any_upto (rules.is_bad_member frame.now k s.now) (groups.member_count s.now) }
    ensures taken { result ≡ false → AreSlots (groups.owner_among frame.now (k + 1)) (length frame.now.headers) owners.new }
{
    let count = member_count(s);
    for i in 0..count {
        let member = group_word(frame, s, i + 1);
        if is_refused(frame, owners, member) {
            return true;
        }
        owners.fill(member, k);
    }
    false
}

/// The fault of the conditions on groups, where `owners` has for each section the first group before
/// of which it is a member. Takes up the members where there is none. Linear in the members.
#[tactic(auto, unfolding(oc_elf::specs::SectionRules::group_conditions))]
pub(crate) fn group_fault(
    frame: &Frame,
    owners: &mut Slots,
    k: u32,
    place: u64,
    s: &Shdr,
) -> Option<Fault>
    requires form { first_broken (rules.form_conditions frame.now k place s.now) ≡ None }
    requires here { s.now ≡ header_at frame.now.headers k }
    requires owners { AreSlots (groups.owner_among frame.now k) (length frame.now.headers) owners.old }
    ensures verdict { result ≡ first_broken (rules.group_conditions frame.now k place s.now) }
    ensures taken { IfNone result (AreSlots (groups.owner_among frame.now (k + 1)) (length frame.now.headers) owners.new) }
{
    if s.sh_type != SHT_GROUP {
        return None;
    }
    if !is_good_group(frame, s) {
        return Some(section_fault(Code::BadTable, k, place));
    }
    if take_members(frame, owners, k, s) {
        return Some(section_fault(Code::BadTable, k, place));
    }
    let flags = group_word(frame, s, 0);
    if flags != 0 && flags != GRP_COMDAT {
        return Some(section_fault(Code::Group, k, place));
    }
    None
}
