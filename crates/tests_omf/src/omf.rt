//! Modules put together by hand from TIS OMF 1.1, with the first fault of their entries.
use oc_base::{Code, Phase, Stop};
use oc_omf::read_module;

/// A module, and the number, code and place of its first fault, or how many entries it has.
type Case = (&'static [u8], Result<u32, (u32, Code, u64)>);

/// The first ten are one module, whole and cut.
const CASES: [Case; 12] = [
    (&[0x80, 3, 0, 1, 0x61, 0x1B, 0x8A, 2, 0, 0, 0x74], Ok(2)),
    (&[0x80, 3, 0, 1, 0x61, 0, 0x8A, 2, 0, 0, 0x74], Ok(2)),
    (
        &[0x80, 3, 0, 1, 0x61, 0x1C, 0x8A, 2, 0, 0, 0x74],
        Err((0, Code::BadChecksum, 0)),
    ),
    (&[], Err((0, Code::Short, 0))),
    (&[0x80, 3], Err((0, Code::Short, 0))),
    (&[0x80, 3, 0, 1, 0x61], Err((0, Code::Short, 0))),
    (&[0x80, 3, 0, 1, 0x61, 0x1B], Err((1, Code::Short, 6))),
    (
        &[0x80, 3, 0, 1, 0x61, 0x1B, 0x8A, 2, 0, 0],
        Err((1, Code::Short, 6)),
    ),
    (
        &[0x80, 3, 0, 1, 0x61, 0x1B, 0x8A, 0, 0, 0, 0x74],
        Err((1, Code::Short, 6)),
    ),
    (
        &[0x80, 3, 0, 1, 0x61, 0x1B, 0x8A, 1, 0, 0],
        Err((1, Code::BadTable, 6)),
    ),
    (
        &[0x80, 3, 0, 1, 0x61, 0x1B, 0x8A, 2, 0, 0x40, 0],
        Err((1, Code::RecordKind, 6)),
    ),
    (
        &[0x80, 3, 0, 1, 0x61, 0, 0x80, 3, 0, 1, 0x61, 0],
        Err((1, Code::RecordKind, 6)),
    ),
];

#[test]
fn first_faults_of_entries(rt: HostRuntime) {
    for (bytes, want) in &CASES {
        let got = match read_module(rt.alloc(), bytes) {
            Ok(module) => Ok(module.count()),
            Err(Stop::Refused(fault)) => {
                assert_eq!(rt; fault.phase, Phase::Header);
                Err((fault.index, fault.code, fault.place))
            }
            Err(Stop::NoMemory) => Ok(u32::MAX),
        };
        assert_eq!(rt; got, *want, "{bytes:?}");
    }
}
