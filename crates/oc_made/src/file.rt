//! The object as a file.
ghost use Rattle.std.specs.Prelude.{◌≡◌, ◌≤◌, IfOk};
ghost use Rattle.oc_made.specs.Files.{made_bytes};

use crate::object::made;
use oc_base::{Format, NoMemory, Word};
use oc_elf_write::{ElfWriter32, ElfWriter64};
use oc_target::{Emits, Fitted, Writes};
use std::alloc::Global;

// the whole file of a plan
fn whole<P: Emits + Drop>(alloc: Global, plan: P) -> Result<Vec<u8>, NoMemory>
    ensures { IfOk result (λ bytes. bytes.items ≡ P.file plan) }
{
    let len = plan.len() as usize;
    let mut bytes = vec![in alloc; 0u8; len]?;
    let _count = plan.window(0, bytes.as_mut_slice());
    Ok(bytes)
}

/// The canonical ELF file of the object of `count` functions, at most 100,000 (`made`): of the class
/// whose addresses have the word's size.
///
/// `NoMemory` where memory ran out; there is no other refusal. Takes the time and memory of making the
/// object and planning its file, and memory for the file.
pub fn made_file(alloc: Global, count: u32, word: Word) -> Result<Vec<u8>, NoMemory>
    requires { count ≤ 100000 }
    ensures { IfOk result (λ bytes. bytes.items ≡ made_bytes count word) }
{
    let object = made(alloc, count, word)?;
    match word {
        Word::W32 => {
            let fitted = Fitted::new(Format::Elf32, object);
            let plan = ElfWriter32.plan(alloc, fitted)?;
            whole(alloc, plan)
        }
        Word::W64 => {
            let fitted = Fitted::new(Format::Elf64, object);
            let plan = ElfWriter64.plan(alloc, fitted)?;
            whole(alloc, plan)
        }
    }
}
