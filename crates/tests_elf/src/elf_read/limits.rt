//! The limits on the contents of all sections: many headers cover the same bytes.
use super::fault_of;
use oc_base::Code::{LimitBytes, LimitSum};
use oc_base::{MOST_INPUT, NoMemory, Phase};
use oc_elf::ElfClass;
use std::alloc::Global;
use std::test::Fail;
use tests_cases::expected;

/// The bytes that the sections share.
const SHARED: u32 = 65_536;

/// The file header up to the number of sections, whose headers come after the shared bytes.
const HEAD: [u8; 48] = [
    0x7F, 0x45, 0x4C, 0x46, 1, 1, 1, 0, 0, 0, 0, 0, 0, 0, 0, 0, 1, 0, 3, 0, 1, 0, 0, 0, 0, 0, 0, 0,
    0, 0, 0, 0, 0x34, 0, 1, 0, 0, 0, 0, 0, 52, 0, 0, 0, 0, 0, 40, 0,
];

/// Puts the header of a section after others.
fn add_header(
    file: &mut Vec<u8>,
    sh_type: u32,
    sh_flags: u32,
    sh_size: u32,
) -> Result<(), NoMemory> {
    for field in [0, sh_type, sh_flags, 0, 52, sh_size, 0, 0, 1, 0] {
        file.extend_from_slice(field.to_le_bytes().as_slice())?;
    }
    Ok(())
}

/// An object with a section of so many zeros, and so many sections of the same bytes.
fn stacked(alloc: Global, zeros: u32, count: u16) -> Result<Vec<u8>, NoMemory> {
    let mut file = HEAD.to_vec(alloc)?;
    file.extend_from_slice(count.saturating_add(3).to_le_bytes().as_slice())?;
    file.extend_from_slice([1, 0].as_slice())?;
    for _byte in 0..SHARED {
        file.push(0)?;
    }
    add_header(&mut file, 0, 0, 0)?;
    add_header(&mut file, 3, 0, 1)?;
    add_header(&mut file, 8, 3, zeros)?;
    for _section in 0..count {
        add_header(&mut file, 1, 2, SHARED)?;
    }
    Ok(file)
}

/// 2^26 bytes pass and more do not; 2^31 bytes with the zeros pass, and of both limits that on all
/// bytes comes first.
#[test]
fn contents_of_many_sections(rt: HostRuntime) -> Result<(), Fail> {
    for (zeros, count, fault) in [
        (0, 1024, None),
        (0, 1025, Some((LimitBytes, 67_174_400))),
        (2_080_374_784, 1024, None),
        (2_080_374_784, 1025, Some((LimitSum, 2_147_549_184))),
    ] {
        let file = stacked(rt.alloc(), zeros, count)?;
        assert!(rt; file.len() as u64 <= MOST_INPUT);
        let want = match fault {
            Some((code, place)) => expected(Phase::Section, (1027, code, place)),
            None => None,
        };
        let found = fault_of(rt.alloc(), ElfClass::Class32, file.as_slice());
        assert_eq!(rt; found, want, "{count} sections and {zeros} zeros");
    }
    Ok(())
}
