//! Modules put together by hand from TIS OMF 1.1, with the first fault of their sections and symbols.
use oc_base::{Code, MOST_INPUT, Phase, Stop};
use oc_omf_judge::judge_front;
use std::alloc::Global;

/// A module, and the first fault of its sections and symbols.
type Judged = (&'static [u8], Option<(Phase, u32, Code, u64)>);

/// Each condition alone, and two where the earlier one is reported.
static JUDGED: [Judged; 38] = [
    // whole, of each kind
    (
        &[
            0x80, 3, 0, 1, 0x61, 0, 0x96, 9, 0, 0, 1, 0x64, 4, 0x43, 0x4F, 0x44, 0x45, 0, 0x98, 7,
            0, 0x29, 4, 0, 2, 3, 1, 0, 0x9A, 4, 0, 2, 0xFF, 1, 0, 0xA0, 6, 0, 1, 0, 0, 1, 2, 0,
            0xA0, 6, 0, 1, 2, 0, 3, 4, 0, 0x90, 8, 0, 0, 1, 1, 0x61, 0, 0, 0, 0, 0x8C, 4, 0, 1,
            0x62, 0, 0, 0xB0, 6, 0, 1, 0x63, 0, 0x62, 4, 0, 0x8A, 2, 0, 0, 0,
        ],
        None,
    ),
    // a name that is cut
    (
        &[
            0x80, 3, 0, 1, 0x61, 0, 0x96, 3, 0, 3, 1, 0, 0x8A, 2, 0, 0, 0,
        ],
        Some((Phase::Section, 1, Code::BadName, 6)),
    ),
    // a segment that is cut
    (
        &[
            0x80, 3, 0, 1, 0x61, 0, 0x96, 9, 0, 0, 1, 0x64, 4, 0x43, 0x4F, 0x44, 0x45, 0, 0x98, 3,
            0, 0x29, 4, 0, 0x8A, 2, 0, 0, 0,
        ],
        Some((Phase::Section, 2, Code::BadTable, 18)),
    ),
    // 16-bit offsets, and an alignment that is not known: the first is reported
    (
        &[
            0x80, 3, 0, 1, 0x61, 0, 0x96, 9, 0, 0, 1, 0x64, 4, 0x43, 0x4F, 0x44, 0x45, 0, 0x98, 7,
            0, 0xC8, 4, 0, 2, 3, 1, 0, 0x8A, 2, 0, 0, 0,
        ],
        Some((Phase::Section, 2, Code::SectionKind, 18)),
    ),
    // an alignment that is not known, and a name that is not there
    (
        &[
            0x80, 3, 0, 1, 0x61, 0, 0x96, 9, 0, 0, 1, 0x64, 4, 0x43, 0x4F, 0x44, 0x45, 0, 0x98, 7,
            0, 0xC9, 4, 0, 9, 3, 1, 0, 0x8A, 2, 0, 0, 0,
        ],
        Some((Phase::Section, 2, Code::BadAlign, 18)),
    ),
    // a name that is not there, and too many bytes
    (
        &[
            0x80, 3, 0, 1, 0x61, 0, 0x96, 9, 0, 0, 1, 0x64, 4, 0x43, 0x4F, 0x44, 0x45, 0, 0x99, 9,
            0, 0x29, 0, 0, 0, 0x80, 9, 3, 1, 0, 0x8A, 2, 0, 0, 0,
        ],
        Some((Phase::Section, 2, Code::BadIndex, 18)),
    ),
    // a segment of 2^31 bytes
    (
        &[
            0x80, 3, 0, 1, 0x61, 0, 0x96, 9, 0, 0, 1, 0x64, 4, 0x43, 0x4F, 0x44, 0x45, 0, 0x99, 9,
            0, 0x29, 0, 0, 0, 0x80, 2, 3, 1, 0, 0x8A, 2, 0, 0, 0,
        ],
        Some((Phase::Section, 2, Code::LimitSection, 2147483648)),
    ),
    // two segments of more than 2^31 bytes
    (
        &[
            0x80, 3, 0, 1, 0x61, 0, 0x96, 9, 0, 0, 1, 0x64, 4, 0x43, 0x4F, 0x44, 0x45, 0, 0x99, 9,
            0, 0x29, 0xFF, 0xFF, 0xFF, 0x7F, 2, 3, 1, 0, 0x99, 9, 0, 0x29, 2, 0, 0, 0, 2, 3, 1, 0,
            0x8A, 2, 0, 0, 0,
        ],
        Some((Phase::Section, 3, Code::LimitSum, 2147483649)),
    ),
    // more than 2^26 bytes at the end
    (
        &[
            0x80, 3, 0, 1, 0x61, 0, 0x96, 9, 0, 0, 1, 0x64, 4, 0x43, 0x4F, 0x44, 0x45, 0, 0x99, 9,
            0, 0x29, 1, 0, 0, 4, 2, 3, 1, 0, 0x8A, 2, 0, 0, 0,
        ],
        Some((Phase::Section, 3, Code::LimitBytes, 67108865)),
    ),
    // a group that is cut
    (
        &[
            0x80, 3, 0, 1, 0x61, 0, 0x96, 9, 0, 0, 1, 0x64, 4, 0x43, 0x4F, 0x44, 0x45, 0, 0x98, 7,
            0, 0x29, 4, 0, 2, 3, 1, 0, 0x9A, 5, 0, 2, 0xFE, 1, 0xFF, 0, 0x8A, 2, 0, 0, 0,
        ],
        Some((Phase::Section, 3, Code::BadTable, 28)),
    ),
    // a group with another mark, and a segment that is not there
    (
        &[
            0x80, 3, 0, 1, 0x61, 0, 0x96, 9, 0, 0, 1, 0x64, 4, 0x43, 0x4F, 0x44, 0x45, 0, 0x98, 7,
            0, 0x29, 4, 0, 2, 3, 1, 0, 0x9A, 4, 0, 2, 0xFE, 9, 0, 0x8A, 2, 0, 0, 0,
        ],
        Some((Phase::Section, 3, Code::SectionKind, 28)),
    ),
    // a group with a segment that is not there
    (
        &[
            0x80, 3, 0, 1, 0x61, 0, 0x96, 9, 0, 0, 1, 0x64, 4, 0x43, 0x4F, 0x44, 0x45, 0, 0x98, 7,
            0, 0x29, 4, 0, 2, 3, 1, 0, 0x9A, 4, 0, 2, 0xFF, 2, 0, 0x8A, 2, 0, 0, 0,
        ],
        Some((Phase::Section, 3, Code::BadIndex, 28)),
    ),
    // data of a segment that is not there
    (
        &[
            0x80, 3, 0, 1, 0x61, 0, 0x96, 9, 0, 0, 1, 0x64, 4, 0x43, 0x4F, 0x44, 0x45, 0, 0x98, 7,
            0, 0x29, 4, 0, 2, 3, 1, 0, 0xA0, 5, 0, 2, 9, 0, 1, 0, 0x8A, 2, 0, 0, 0,
        ],
        Some((Phase::Section, 3, Code::BadIndex, 28)),
    ),
    // data that pass the end
    (
        &[
            0x80, 3, 0, 1, 0x61, 0, 0x96, 9, 0, 0, 1, 0x64, 4, 0x43, 0x4F, 0x44, 0x45, 0, 0x98, 7,
            0, 0x29, 4, 0, 2, 3, 1, 0, 0xA0, 6, 0, 1, 3, 0, 1, 2, 0, 0x8A, 2, 0, 0, 0,
        ],
        Some((Phase::Section, 3, Code::DataPastEnd, 28)),
    ),
    // empty data that begin past the end
    (
        &[
            0x80, 3, 0, 1, 0x61, 0, 0x96, 9, 0, 0, 1, 0x64, 4, 0x43, 0x4F, 0x44, 0x45, 0, 0x98, 7,
            0, 0x29, 4, 0, 2, 3, 1, 0, 0xA0, 4, 0, 1, 5, 0, 0, 0x8A, 2, 0, 0, 0,
        ],
        Some((Phase::Section, 3, Code::DataPastEnd, 28)),
    ),
    // data that meet
    (
        &[
            0x80, 3, 0, 1, 0x61, 0, 0x96, 9, 0, 0, 1, 0x64, 4, 0x43, 0x4F, 0x44, 0x45, 0, 0x98, 7,
            0, 0x29, 4, 0, 2, 3, 1, 0, 0xA0, 7, 0, 1, 0, 0, 1, 2, 3, 0, 0xA0, 5, 0, 1, 2, 0, 1, 0,
            0x8A, 2, 0, 0, 0,
        ],
        Some((Phase::Section, 4, Code::DataOverlap, 38)),
    ),
    // empty data within data
    (
        &[
            0x80, 3, 0, 1, 0x61, 0, 0x96, 9, 0, 0, 1, 0x64, 4, 0x43, 0x4F, 0x44, 0x45, 0, 0x98, 7,
            0, 0x29, 4, 0, 2, 3, 1, 0, 0xA0, 7, 0, 1, 0, 0, 1, 2, 3, 0, 0xA0, 4, 0, 1, 1, 0, 0,
            0x8A, 2, 0, 0, 0,
        ],
        None,
    ),
    // 200 bytes, repeated 0 times
    (
        &[
            0x80, 3, 0, 1, 0x61, 0, 0x96, 9, 0, 0, 1, 0x64, 4, 0x43, 0x4F, 0x44, 0x45, 0, 0x98, 7,
            0, 0x29, 4, 0, 2, 3, 1, 0, 0xA2, 0xD1, 0, 1, 0, 0, 0, 0, 0, 0, 0xC8, 7, 7, 7, 7, 7, 7,
            7, 7, 7, 7, 7, 7, 7, 7, 7, 7, 7, 7, 7, 7, 7, 7, 7, 7, 7, 7, 7, 7, 7, 7, 7, 7, 7, 7, 7,
            7, 7, 7, 7, 7, 7, 7, 7, 7, 7, 7, 7, 7, 7, 7, 7, 7, 7, 7, 7, 7, 7, 7, 7, 7, 7, 7, 7, 7,
            7, 7, 7, 7, 7, 7, 7, 7, 7, 7, 7, 7, 7, 7, 7, 7, 7, 7, 7, 7, 7, 7, 7, 7, 7, 7, 7, 7, 7,
            7, 7, 7, 7, 7, 7, 7, 7, 7, 7, 7, 7, 7, 7, 7, 7, 7, 7, 7, 7, 7, 7, 7, 7, 7, 7, 7, 7, 7,
            7, 7, 7, 7, 7, 7, 7, 7, 7, 7, 7, 7, 7, 7, 7, 7, 7, 7, 7, 7, 7, 7, 7, 7, 7, 7, 7, 7, 7,
            7, 7, 7, 7, 7, 7, 7, 7, 7, 7, 7, 7, 7, 7, 7, 7, 7, 7, 7, 7, 7, 7, 7, 7, 7, 7, 7, 7, 7,
            7, 7, 7, 7, 7, 7, 7, 7, 7, 7, 7, 7, 7, 7, 7, 7, 7, 7, 7, 7, 0, 0x8A, 2, 0, 0, 0,
        ],
        None,
    ),
    // a block that is cut
    (
        &[
            0x80, 3, 0, 1, 0x61, 0, 0x96, 9, 0, 0, 1, 0x64, 4, 0x43, 0x4F, 0x44, 0x45, 0, 0x98, 7,
            0, 0x29, 4, 0, 2, 3, 1, 0, 0xA2, 0x0A, 0, 9, 0, 0, 1, 0, 0, 0, 3, 7, 0, 0x8A, 2, 0, 0,
            0,
        ],
        Some((Phase::Section, 3, Code::BadTable, 28)),
    ),
    // blocks nested 33 deep, of a segment that is not there
    (
        &[
            0x80, 3, 0, 1, 0x61, 0, 0x96, 9, 0, 0, 1, 0x64, 4, 0x43, 0x4F, 0x44, 0x45, 0, 0x98, 7,
            0, 0x29, 4, 0, 2, 3, 1, 0, 0xA2, 0x88, 0, 9, 0, 0, 1, 0, 1, 0, 1, 0, 1, 0, 1, 0, 1, 0,
            1, 0, 1, 0, 1, 0, 1, 0, 1, 0, 1, 0, 1, 0, 1, 0, 1, 0, 1, 0, 1, 0, 1, 0, 1, 0, 1, 0, 1,
            0, 1, 0, 1, 0, 1, 0, 1, 0, 1, 0, 1, 0, 1, 0, 1, 0, 1, 0, 1, 0, 1, 0, 1, 0, 1, 0, 1, 0,
            1, 0, 1, 0, 1, 0, 1, 0, 1, 0, 1, 0, 1, 0, 1, 0, 1, 0, 1, 0, 1, 0, 1, 0, 1, 0, 1, 0, 1,
            0, 1, 0, 1, 0, 1, 0, 1, 0, 1, 0, 1, 0, 1, 0, 1, 0, 1, 0, 1, 0, 1, 0, 1, 0, 1, 0, 1, 0,
            1, 0, 1, 0, 0, 0x8A, 2, 0, 0, 0,
        ],
        Some((Phase::Section, 3, Code::BadIndex, 28)),
    ),
    // blocks nested 33 deep
    (
        &[
            0x80, 3, 0, 1, 0x61, 0, 0x96, 9, 0, 0, 1, 0x64, 4, 0x43, 0x4F, 0x44, 0x45, 0, 0x98, 7,
            0, 0x29, 4, 0, 2, 3, 1, 0, 0xA2, 0x88, 0, 1, 0, 0, 1, 0, 1, 0, 1, 0, 1, 0, 1, 0, 1, 0,
            1, 0, 1, 0, 1, 0, 1, 0, 1, 0, 1, 0, 1, 0, 1, 0, 1, 0, 1, 0, 1, 0, 1, 0, 1, 0, 1, 0, 1,
            0, 1, 0, 1, 0, 1, 0, 1, 0, 1, 0, 1, 0, 1, 0, 1, 0, 1, 0, 1, 0, 1, 0, 1, 0, 1, 0, 1, 0,
            1, 0, 1, 0, 1, 0, 1, 0, 1, 0, 1, 0, 1, 0, 1, 0, 1, 0, 1, 0, 1, 0, 1, 0, 1, 0, 1, 0, 1,
            0, 1, 0, 1, 0, 1, 0, 1, 0, 1, 0, 1, 0, 1, 0, 1, 0, 1, 0, 1, 0, 1, 0, 1, 0, 1, 0, 1, 0,
            1, 0, 1, 0, 0, 0x8A, 2, 0, 0, 0,
        ],
        Some((Phase::Section, 3, Code::TooDeep, 28)),
    ),
    // a definition in a segment that is not there
    (
        &[
            0x80, 3, 0, 1, 0x61, 0, 0x96, 9, 0, 0, 1, 0x64, 4, 0x43, 0x4F, 0x44, 0x45, 0, 0x98, 7,
            0, 0x29, 4, 0, 2, 3, 1, 0, 0x90, 8, 0, 0, 2, 1, 0x61, 0, 0, 0, 0, 0x8A, 2, 0, 0, 0,
        ],
        Some((Phase::Symbol, 3, Code::BadIndex, 28)),
    ),
    // a definition in no segment
    (
        &[
            0x80, 3, 0, 1, 0x61, 0, 0x96, 9, 0, 0, 1, 0x64, 4, 0x43, 0x4F, 0x44, 0x45, 0, 0x98, 7,
            0, 0x29, 4, 0, 2, 3, 1, 0, 0x90, 0x0A, 0, 0, 0, 0, 0, 1, 0x61, 0, 0, 0, 0, 0x8A, 2, 0,
            0, 0,
        ],
        Some((Phase::Symbol, 3, Code::SymbolKind, 28)),
    ),
    // a definition past the end of its segment
    (
        &[
            0x80, 3, 0, 1, 0x61, 0, 0x96, 9, 0, 0, 1, 0x64, 4, 0x43, 0x4F, 0x44, 0x45, 0, 0x98, 7,
            0, 0x29, 4, 0, 2, 3, 1, 0, 0x90, 8, 0, 0, 1, 1, 0x61, 5, 0, 0, 0, 0x8A, 2, 0, 0, 0,
        ],
        Some((Phase::Symbol, 3, Code::SymbolPastEnd, 33)),
    ),
    // a definition at the end of its segment
    (
        &[
            0x80, 3, 0, 1, 0x61, 0, 0x96, 9, 0, 0, 1, 0x64, 4, 0x43, 0x4F, 0x44, 0x45, 0, 0x98, 7,
            0, 0x29, 4, 0, 2, 3, 1, 0, 0x90, 8, 0, 0, 1, 1, 0x61, 4, 0, 0, 0, 0x8A, 2, 0, 0, 0,
        ],
        None,
    ),
    // a definition without a name
    (
        &[
            0x80, 3, 0, 1, 0x61, 0, 0x96, 9, 0, 0, 1, 0x64, 4, 0x43, 0x4F, 0x44, 0x45, 0, 0x98, 7,
            0, 0x29, 4, 0, 2, 3, 1, 0, 0x90, 7, 0, 0, 1, 0, 0, 0, 0, 0, 0x8A, 2, 0, 0, 0,
        ],
        Some((Phase::Symbol, 3, Code::SymbolKind, 33)),
    ),
    // a name that is cut
    (
        &[
            0x80, 3, 0, 1, 0x61, 0, 0x96, 9, 0, 0, 1, 0x64, 4, 0x43, 0x4F, 0x44, 0x45, 0, 0x98, 7,
            0, 0x29, 4, 0, 2, 3, 1, 0, 0x90, 5, 0, 0, 1, 4, 0x61, 0, 0x8A, 2, 0, 0, 0,
        ],
        Some((Phase::Symbol, 3, Code::BadName, 33)),
    ),
    // an offset that is cut
    (
        &[
            0x80, 3, 0, 1, 0x61, 0, 0x96, 9, 0, 0, 1, 0x64, 4, 0x43, 0x4F, 0x44, 0x45, 0, 0x98, 7,
            0, 0x29, 4, 0, 2, 3, 1, 0, 0x90, 6, 0, 0, 1, 1, 0x61, 0, 0, 0x8A, 2, 0, 0, 0,
        ],
        Some((Phase::Symbol, 3, Code::BadTable, 33)),
    ),
    // two definitions of one name
    (
        &[
            0x80, 3, 0, 1, 0x61, 0, 0x96, 9, 0, 0, 1, 0x64, 4, 0x43, 0x4F, 0x44, 0x45, 0, 0x98, 7,
            0, 0x29, 4, 0, 2, 3, 1, 0, 0x90, 8, 0, 0, 1, 1, 0x61, 0, 0, 0, 0, 0x90, 8, 0, 0, 1, 1,
            0x61, 0, 0, 0, 0, 0x8A, 2, 0, 0, 0,
        ],
        Some((Phase::Symbol, 4, Code::DuplicateName, 44)),
    ),
    // one name here and one elsewhere
    (
        &[
            0x80, 3, 0, 1, 0x61, 0, 0x96, 9, 0, 0, 1, 0x64, 4, 0x43, 0x4F, 0x44, 0x45, 0, 0x98, 7,
            0, 0x29, 4, 0, 2, 3, 1, 0, 0x90, 8, 0, 0, 1, 1, 0x61, 0, 0, 0, 0, 0xB6, 8, 0, 0, 1, 1,
            0x61, 0, 0, 0, 0, 0x8A, 2, 0, 0, 0,
        ],
        None,
    ),
    // an external that is defined nowhere
    (
        &[
            0x80, 3, 0, 1, 0x61, 0, 0x96, 9, 0, 0, 1, 0x64, 4, 0x43, 0x4F, 0x44, 0x45, 0, 0x98, 7,
            0, 0x29, 4, 0, 2, 3, 1, 0, 0xB4, 4, 0, 1, 0x61, 0, 0, 0x8A, 2, 0, 0, 0,
        ],
        Some((Phase::Symbol, 3, Code::BadSymbol, 31)),
    ),
    // an external that is defined for other modules
    (
        &[
            0x80, 3, 0, 1, 0x61, 0, 0x96, 9, 0, 0, 1, 0x64, 4, 0x43, 0x4F, 0x44, 0x45, 0, 0x98, 7,
            0, 0x29, 4, 0, 2, 3, 1, 0, 0x90, 8, 0, 0, 1, 1, 0x61, 0, 0, 0, 0, 0xB4, 4, 0, 1, 0x61,
            0, 0, 0x8A, 2, 0, 0, 0,
        ],
        Some((Phase::Symbol, 4, Code::BadSymbol, 42)),
    ),
    // an external that is defined later
    (
        &[
            0x80, 3, 0, 1, 0x61, 0, 0x96, 9, 0, 0, 1, 0x64, 4, 0x43, 0x4F, 0x44, 0x45, 0, 0x98, 7,
            0, 0x29, 4, 0, 2, 3, 1, 0, 0xB4, 4, 0, 1, 0x61, 0, 0, 0xB6, 8, 0, 0, 1, 1, 0x61, 0, 0,
            0, 0, 0x8A, 2, 0, 0, 0,
        ],
        None,
    ),
    // a far communal
    (
        &[
            0x80, 3, 0, 1, 0x61, 0, 0x96, 9, 0, 0, 1, 0x64, 4, 0x43, 0x4F, 0x44, 0x45, 0, 0x98, 7,
            0, 0x29, 4, 0, 2, 3, 1, 0, 0xB0, 7, 0, 1, 0x61, 0, 0x61, 1, 1, 0, 0x8A, 2, 0, 0, 0,
        ],
        Some((Phase::Symbol, 3, Code::SymbolKind, 31)),
    ),
    // a communal without a length
    (
        &[
            0x80, 3, 0, 1, 0x61, 0, 0x96, 9, 0, 0, 1, 0x64, 4, 0x43, 0x4F, 0x44, 0x45, 0, 0x98, 7,
            0, 0x29, 4, 0, 2, 3, 1, 0, 0xB0, 6, 0, 1, 0x61, 0, 0x62, 0, 0, 0x8A, 2, 0, 0, 0,
        ],
        Some((Phase::Symbol, 3, Code::BadCommon, 31)),
    ),
    // a communal whose length has no form
    (
        &[
            0x80, 3, 0, 1, 0x61, 0, 0x96, 9, 0, 0, 1, 0x64, 4, 0x43, 0x4F, 0x44, 0x45, 0, 0x98, 7,
            0, 0x29, 4, 0, 2, 3, 1, 0, 0xB0, 6, 0, 1, 0x61, 0, 0x62, 0x82, 0, 0x8A, 2, 0, 0, 0,
        ],
        Some((Phase::Symbol, 3, Code::BadCommon, 31)),
    ),
    // a communal with two lengths
    (
        &[
            0x80, 3, 0, 1, 0x61, 0, 0x96, 9, 0, 0, 1, 0x64, 4, 0x43, 0x4F, 0x44, 0x45, 0, 0x98, 7,
            0, 0x29, 4, 0, 2, 3, 1, 0, 0xB0, 6, 0, 1, 0x61, 0, 0x62, 4, 0, 0xB0, 9, 0, 1, 0x61, 0,
            0x62, 0x84, 5, 0, 0, 0, 0x8A, 2, 0, 0, 0,
        ],
        Some((Phase::Symbol, 4, Code::DuplicateName, 40)),
    ),
    // a communal with one length in two forms
    (
        &[
            0x80, 3, 0, 1, 0x61, 0, 0x96, 9, 0, 0, 1, 0x64, 4, 0x43, 0x4F, 0x44, 0x45, 0, 0x98, 7,
            0, 0x29, 4, 0, 2, 3, 1, 0, 0xB0, 6, 0, 1, 0x61, 0, 0x62, 4, 0, 0xB0, 9, 0, 1, 0x61, 0,
            0x62, 0x84, 4, 0, 0, 0, 0x8A, 2, 0, 0, 0,
        ],
        None,
    ),
];

// the cases
fn judged() -> &'static [Judged] {
    &JUDGED
}

// the stages before relocations
fn check(alloc: Global, bytes: &[u8]) -> Result<(), Stop> {
    if bytes.len() as u64 > MOST_INPUT {
        return Err(Stop::NoMemory);
    }
    let _front = judge_front(alloc, bytes)?;
    Ok(())
}

#[test]
fn first_faults_of_sections_and_symbols(rt: HostRuntime) {
    for (bytes, want) in judged() {
        let got = match check(rt.alloc(), bytes) {
            Ok(()) => None,
            Err(Stop::Refused(fault)) => Some((fault.phase, fault.index, fault.code, fault.place)),
            Err(Stop::NoMemory) => Some((Phase::Header, 0, Code::Short, 0)),
        };
        assert_eq!(rt; got, *want, "{bytes:?}");
    }
}
