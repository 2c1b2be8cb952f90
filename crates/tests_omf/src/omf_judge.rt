//! Modules put together by hand from TIS OMF 1.1, with the first fault of their threads and fixups.
mod fields;
mod front;
mod names;

use oc_base::{Code, Fault, MOST_INPUT, NoMemory, Phase, Stop};
use oc_neutral::Keep;
use oc_omf_judge::judged;
use std::alloc::Global;
use tests_cases::KEEP;

/// The entries of a module between `FRONT` and `END`, whether debugging information is kept, and the
/// number, code and place of its first fault.
pub(crate) type Judged = (&'static [u8], bool, Option<(u32, Code, u64)>);

/// What each module begins with: names "", "CODE", "FLAT" and "DEB"; segment 1, of code, with 32
/// bytes, and segment 2, of debugging information, with 8; groups 1, which is FLAT, and 2; externals
/// 1 and 3, which are "x", and 2, which is "p", a place in segment 1 that this module alone sees.
static FRONT: &[u8] = &[
    0x80, 3, 0, 1, 0x61, 0, 0x96, 0x10, 0, 0, 4, 0x43, 0x4F, 0x44, 0x45, 4, 0x46, 0x4C, 0x41, 0x54,
    3, 0x44, 0x45, 0x42, 0, 0x98, 7, 0, 0x29, 0x20, 0, 1, 2, 1, 0, 0x98, 7, 0, 0x29, 8, 0, 1, 4, 1,
    0, 0x9A, 4, 0, 3, 0xFF, 1, 0, 0x9A, 2, 0, 2, 0, 0x8C, 4, 0, 1, 0x78, 0, 0, 0xB6, 8, 0, 0, 1, 1,
    0x70, 4, 0, 0, 0, 0xB4, 4, 0, 1, 0x70, 0, 0, 0x8C, 4, 0, 1, 0x78, 0, 0,
];
/// What each ends with.
static END: &[u8] = &[0x8A, 2, 0, 0, 0];

/// The whole module of a case.
fn module_of(alloc: Global, entries: &[u8]) -> Result<Vec<u8>, NoMemory> {
    let mut file = FRONT.to_vec(alloc)?;
    file.extend_from_slice(entries)?;
    file.extend_from_slice(END)?;
    Ok(file)
}

/// Judges the module of a case.
fn judge(alloc: Global, entries: &[u8], debug: bool) -> Result<(), Stop> {
    let keep = Keep { debug, ..KEEP };
    let Ok(file) = module_of(alloc, entries) else {
        return Err(Stop::NoMemory);
    };
    if file.len() as u64 > MOST_INPUT {
        return Err(Stop::NoMemory);
    }
    match judged(alloc, file.as_slice(), &keep) {
        Ok(_module) => Ok(()),
        Err(read) => Err(read),
    }
}

/// What judging tells of a first fault.
fn told(index: u32, code: Code, place: u64) -> Stop {
    Stop::Refused(Fault {
        phase: Phase::Relocation,
        index,
        code,
        place,
    })
}

/// What judging is to answer.
fn wanted(first: Option<(u32, Code, u64)>) -> Result<(), Stop> {
    match first {
        Some((index, code, place)) => Err(told(index, code, place)),
        None => Ok(()),
    }
}

#[test]
fn first_faults_of_threads_and_names(rt: HostRuntime) {
    for (entries, debug, first) in names::cases() {
        let got = judge(rt.alloc(), entries, *debug);
        assert_eq!(rt; got, wanted(*first), "{entries:?}");
    }
}

#[test]
fn first_faults_of_fields(rt: HostRuntime) {
    for (entries, debug, first) in fields::cases() {
        let got = judge(rt.alloc(), entries, *debug);
        assert_eq!(rt; got, wanted(*first), "{entries:?}");
    }
}
