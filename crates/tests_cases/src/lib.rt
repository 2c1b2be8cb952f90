//! What the tests of readers share: files into which bytes are put, and the faults that they have then.
#![tactic(auto)]

use oc_base::{Code, Fault, Phase, Stop};
use oc_neutral::Keep;

/// What is put into a file, and where.
pub type Edits = &'static [(usize, &'static [u8])];

/// How many bytes of a file are left, what is put into it, and the fault that it has then: its index, code and place.
pub type Case = (usize, Edits, (u32, Code, u64));

/// What is kept: all.
pub const KEEP: Keep = Keep {
    debug: true,
    exceptions: true,
    notes: true,
};

/// Puts bytes into a file.
pub fn put(file: &mut [u8], edits: Edits) {
    for (at, bytes) in edits {
        for (slot, byte) in file.iter_mut().skip(*at).zip(bytes.iter()) {
            *slot = *byte;
        }
    }
}

/// The fault of a file that was not read, if memory sufficed.
pub fn fault_in(read: Stop) -> Option<Fault> {
    match read {
        Stop::Refused(fault) => Some(fault),
        Stop::NoMemory => None,
    }
}

/// The fault of a case.
pub fn expected(phase: Phase, (index, code, place): (u32, Code, u64)) -> Option<Fault> {
    Some(Fault {
        phase,
        index,
        code,
        place,
    })
}
