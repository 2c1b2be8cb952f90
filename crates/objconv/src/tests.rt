//! Whole runs over files and a console in memory that end before a whole object is read. All texts are
//! those that the command's description states, byte for byte.
ghost use Rattle.std.specs.Prelude.{◌-◌, ◌^◌, None};

use super::*;
use oc_base::NoMemory;
use oc_outside::{Failed, Files, MemConsole, MemFiles};
use std::alloc::Global;
use std::test::Fail;

/// A run over a file `a` and room for a file `b`, after which no file has changed and nothing was
/// shown.
#[derive(Clone, Copy)]
struct Case {
    words: &'static [&'static str],
    /// The bytes of `a`; nothing where it is not there.
    a: Option<&'static [u8]>,
    /// The call on files that fails, counted from 1; 0: none.
    failing: u64,
    /// How many bytes standard error takes.
    room: u64,
    status: u8,
    told: &'static str,
}

/// The words of a conversion.
const JOB: &[&str] = &["-fcoff32", "a", "b"];

/// The first bytes of an ELF object for i386.
const ELF32: &[u8] = &[0x7F, 0x45, 0x4C, 0x46, 0x01];

/// The first byte of a module of OMF.
const OMF: &[u8] = &[0x80];

/// Words that are no job: nothing is read, so that there is no call that could fail.
const NO_JOB: Case = Case {
    words: &[],
    a: Some(ELF32),
    failing: 1,
    room: 100,
    status: 3,
    told: "objconv: word 0: MissingTarget\n",
};

/// An input that was not read: call 1 is the first read.
const UNREAD: Case = Case {
    words: JOB,
    status: 4,
    told: "objconv: input fault\n",
    ..NO_JOB
};

/// An input of no known format.
const UNKNOWN: Case = Case {
    words: JOB,
    a: Some(&[0]),
    failing: 0,
    status: 1,
    told: "objconv: malformed: header 0: UnknownFormat at 0\n",
    ..NO_JOB
};

/// An input that ends within its first record.
const SHORT: Case = Case {
    a: Some(OMF),
    told: "objconv: malformed: header 0: Short at 0\n",
    ..UNKNOWN
};

/// An input for a machine with other addresses than the target's.
const OTHER_WORD: Case = Case {
    status: 2,
    told: "objconv: refused: header 0: WordSize at 0\n",
    ..SHORT
};

const CASES: [Case; 20] = [
    NO_JOB,
    Case {
        words: &["-fcoff32", "a", "a"],
        told: "objconv: word 2: SameFile\n",
        ..NO_JOB
    },
    Case {
        words: &["-fcoff32", "-zz", "a", "b"],
        told: "objconv: word 1: UnknownOption\n",
        ..NO_JOB
    },
    Case {
        words: &["-ds", "a", "b"],
        told: "objconv: word 2: ExtraName\n",
        ..NO_JOB
    },
    Case {
        words: &["--make=0", "coff32", "b"],
        told: "objconv: word 0: BadNumber\n",
        ..NO_JOB
    },
    // the text finds no room, and the status stays
    Case {
        words: &["-fcoff32", "a"],
        room: 0,
        told: "",
        ..NO_JOB
    },
    // the first read fails, the one that finds the end, and there is no file
    UNREAD,
    Case {
        failing: 2,
        ..UNREAD
    },
    Case {
        a: None,
        failing: 0,
        ..UNREAD
    },
    Case {
        words: &["-ds", "a"],
        ..UNREAD
    },
    Case {
        words: &["-ds", "b"],
        failing: 0,
        ..UNREAD
    },
    // first bytes that are those of no format
    UNKNOWN,
    Case {
        a: Some(&[]),
        ..UNKNOWN
    },
    Case {
        a: Some(&[0x7F, 0x45, 0x4C, 0x46]),
        ..UNKNOWN
    },
    Case {
        words: &["-ds", "a"],
        ..UNKNOWN
    },
    Case {
        room: 0,
        told: "",
        ..UNKNOWN
    },
    // a fault of the file; words that differ come first, but not where a file is listed
    SHORT,
    Case {
        words: &["-ds", "a"],
        ..SHORT
    },
    Case {
        words: &["-fcoff64", "a", "b"],
        ..OTHER_WORD
    },
    Case {
        words: &["a", "-fcoff64", "-nu", "b", "--strip-debug"],
        a: Some(ELF32),
        ..OTHER_WORD
    },
];

/// These words, of which there are few.
fn words_of(alloc: Global, list: &[&str]) -> Result<Words, NoMemory> {
    let mut words = Words::new(alloc);
    for word in list {
        if words.count() < 5 {
            words.push(word)?;
        }
    }
    Ok(words)
}

/// Whether the run of a case ends with its status, reports what it says, and leaves the rest.
fn is_met(alloc: Global, case: &Case) -> Result<bool, NoMemory> {
    let words = words_of(alloc, case.words)?;
    let mut files = MemFiles::new(alloc);
    if let Some(a) = case.a {
        files.set("a", a)?;
    }
    files.room("b", 1000)?;
    if case.failing > 0 {
        files.fail_at(case.failing)?;
    }
    let mut console = MemConsole::new(alloc);
    console.room(100, case.room)?;
    let status = run(alloc, &words, &mut files, &mut console);
    let told = status == case.status && console.told() == case.told.as_bytes();
    Ok(told && console.shown().is_empty() && files.file("a") == case.a && files.file("b").is_none())
}

#[test]
fn runs(rt: HostRuntime) -> Result<(), Fail> {
    for (number, case) in CASES.iter().enumerate() {
        assert!(rt; is_met(rt.alloc(), case)?, "case {number}");
    }
    Ok(())
}

/// Files of 67,108,865 zeros, that can be read so many times.
#[derive(Drop)]
struct Zeros {
    reads: u64,
    faults: u64,
}

impl Files for Zeros {
    ghost held = { λ _. None };

    ghost read_faults = { λ s. s.faults };

    ghost write_faults = { λ _. 2 ^ 64 - 1 };

    fn read_at(&mut self, _name: &str, at: u64, to: &mut [u8]) -> Result<usize, Failed> {
        if self.reads == 0 {
            self.faults = self.faults.saturating_add(1);
            return Err(Failed);
        }
        self.reads -= 1;
        let rest = 67_108_865u64.saturating_sub(at);
        if rest < to.len() as u64 {
            Ok(rest as usize)
        } else {
            Ok(to.len())
        }
    }

    fn create(&mut self, _name: &str) -> Result<(), Failed> {
        Err(Failed)
    }

    fn append(&mut self, _name: &str, _piece: &[u8]) -> Result<usize, Failed> {
        Err(Failed)
    }
}

/// 1,025 reads of 65,536 bytes give all of the 67,108,865: a further one would fail.
#[test]
fn input_limit(rt: HostRuntime) -> Result<(), Fail> {
    let words = words_of(rt.alloc(), JOB)?;
    let mut console = MemConsole::new(rt.alloc());
    console.room(100, 100)?;
    let mut files = Zeros {
        reads: 1025,
        faults: 0,
    };
    let status = run(rt.alloc(), &words, &mut files, &mut console);
    assert_eq!(rt; (status, files.reads), (8, 0));
    assert_eq!(rt;
        console.told(),
        b"objconv: limit: header 0: LimitInput at 67108865\n".as_slice()
    );
    Ok(())
}
