//! The code of the functions.
ghost use Rattle.std.specs.Prelude.{◌≡◌, ◌+◌, ◌*◌, ◌^◌, ◌<◌, ◌≤◌, IfOk};
ghost use Rattle.oc_made.specs.Functions as functions;

use oc_base::{Bytes, NoMemory};
use oc_neutral::elf::{SHF_ALLOC, SHF_EXECINSTR, SHT_PROGBITS};
use oc_neutral::{Kind, Section};
use std::alloc::Global;

/// How many bytes a function has.
pub(crate) const FUNCTION_SIZE: u32 = 16;

/// The bytes of a function: two calls, each `E8` and a field, and six times `90`. The bytes under
/// the fields are zeros.
const FUNCTION: [u8; 16] = [
    0xE8, 0, 0, 0, 0, 0xE8, 0, 0, 0, 0, 0x90, 0x90, 0x90, 0x90, 0x90, 0x90,
];

// the bytes of so many functions
fn code_of(alloc: Global, count: u32) -> Result<Vec<u8>, NoMemory>
    requires { count ≤ 100000 }
    ensures { IfOk result (λ bytes. bytes.items ≡ functions.code_of count) }
{
    let size = count * FUNCTION_SIZE;
    let mut bytes = Vec::new(alloc);
    for k in 0..size {
        bytes.push(FUNCTION[(k % FUNCTION_SIZE) as usize])?;
    }
    Ok(bytes)
}

/// The section `.text` of so many functions. `NoMemory` where memory ran out. Linear in them.
pub(crate) fn text_section(alloc: Global, count: u32) -> Result<Section, NoMemory>
    requires { count ≤ 100000 }
    ensures { IfOk result (λ section. section ≡ functions.text_section count) }
{
    let name = Bytes::from_slice(alloc, b".text")?;
    let bytes = Bytes::from_vec(code_of(alloc, count)?);
    Ok(Section {
        name,
        kind: Kind::Code,
        align: 16,
        size: count * FUNCTION_SIZE,
        bytes,
        tag: 8 * u64::from(SHT_PROGBITS) + SHF_ALLOC + SHF_EXECINSTR,
        number: 1,
        group: None,
    })
}
