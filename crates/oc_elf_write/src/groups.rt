//! The contents of groups (gABI, "Section Groups").
ghost use Rattle.std.specs.Prelude.{◌≡◌, ◌<◌, ◌^◌, [], ◌∷◌, ℕ, length, Some, IsSome, IfSome, IfOk, OnOk};
ghost use Rattle.oc_elf_file.specs.Groups as groups;
ghost use Rattle.oc_elf_file.specs.Heads as elf_heads;
ghost use Rattle.oc_plans.specs.Slots.{is_given};
ghost use Rattle.oc_elf_write.specs.Heads.{head_in, AreHeads};
ghost use Rattle.oc_elf_write.specs.Words.{all_words, IsAddedWhere, items_at, items_of};

use crate::heads::Head;
use oc_base::NoMemory;
use oc_elf::GRP_COMDAT;
use oc_neutral::Neutral;
use std::alloc::Global;

// the contents of so many groups without members
fn no_members(alloc: Global, groups: u32) -> Result<Vec<Vec<u32>>, NoMemory>
    ensures counted { IfOk result (λ words. length words.items ≡ groups) }
    ensures each { IfOk result (λ words. (g : ℕ) → g < groups → items_at words.items g ≡ GRP_COMDAT ∷ []) }
{
    let mut words = Vec::with_capacity(alloc, groups as usize)?;
    for _ in 0..groups {
        words.push(vec![in alloc; GRP_COMDAT; 1]?)?;
    }
    Ok(words)
}

// the group of a section header: that of its section, or of the section whose relocations it is of
fn group_of(neutral: &Neutral, head: Head) -> Option<u32>
    requires { IsSome (head_in neutral.now head) }
    ensures { (is : elf_heads.Head) (g : ℕ) → head_in neutral.now head ≡ Some is → is_given result g ≡ groups.is_member_head g is }
{
    match head {
        Head::Section(k) | Head::Relocs(k) => neutral.section(k).group,
        Head::Null | Head::Group(_) | Head::Symtab | Head::Shndx | Head::Strtab | Head::Shstrtab =>
            None,
    }
}

// adds the number of a header to its group
fn add_member(words: &mut Vec<Vec<u32>>, group: Option<u32>, number: u32) -> Result<(), NoMemory>
    requires { IfSome group (λ g. g < length words.old.items) }
    ensures counted { OnOk result (length words.new.items ≡ length words.old.items) }
    ensures each { OnOk result (IsAddedWhere (is_given group) number words.old.items words.new.items) }
{
    if let Some(group) = group {
        words[group as usize].push(number)?;
    }
    Ok(())
}

/// The contents of each group: the word `GRP_COMDAT`, and the numbers of the headers of its members and
/// of their relocation tables, ascending. `NoMemory` where memory ran out. Linear in the headers.
pub(crate) fn words_of(
    alloc: Global,
    neutral: &Neutral,
    heads: &[Head],
) -> Result<Vec<Vec<u32>>, NoMemory>
    requires heads { AreHeads neutral.now heads.now }
    requires few { length heads.now < 2 ^ 32 }
    ensures { IfOk result (λ words. items_of words.items ≡ all_words neutral.now) }
{
    neutral.is_object();
    let mut words = no_members(alloc, neutral.group_count())?;
    for at in 0..heads.len() {
        add_member(&mut words, group_of(neutral, heads[at]), at as u32)?;
    }
    Ok(words)
}
