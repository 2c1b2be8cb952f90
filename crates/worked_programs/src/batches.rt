//! Batches over files and a console in memory: each status but that for lack of memory, each call
//! that fails, what separates words and lines, and jobs of which one is not done.
//!
//! A line for each batch gives the status, the text on standard error, what the files `b` and `c`
//! hold, and what was shown. What must be printed comes from the command's description
//! (docs/OBJBATCH.md); the object `batch_b.obj` comes from an independent model of the conversion
//! of `batch_a.o`.
ghost use Rattle.std.specs.Prelude.{◌-◌, ◌^◌, None};

use anyhow::{Result, anyhow};
use oc_base::NoMemory;
use oc_batch::{RunsJob, run_batch_by};
use oc_outside::{Console, Failed, Files, LIMIT, MemConsole, MemFiles, RealFiles, read_file};
use oc_words::Words;
use std::alloc::Global;
use std::fmt;
use std::fmt::{Display, Formatter, Write};

/// The object that the jobs read, and the same as COFF.
const OBJECTS: [&str; 2] = ["batch_a.o", "batch_b.obj"];

/// How many bytes each file and each text may grow to.
const ROOM: u64 = 1000;

/// The command, which runs each job.
struct Objconv;

impl RunsJob for Objconv {
    fn run_job<F: Files, C: Console>(
        &self,
        alloc: Global,
        words: &Words,
        files: &mut F,
        console: &mut C,
    ) -> u8 {
        objconv::run(alloc, words, files, console)
    }
}

/// A call of a device, by its number, counted from 1.
#[derive(Clone, Copy)]
enum Call {
    File(u64),
    Console(u64),
}

/// A batch over the file `a`, with room for the files `b`, `c` and `list`.
#[derive(Clone, Copy)]
struct Batch {
    /// What the batch shows.
    name: &'static str,
    words: &'static [&'static str],
    /// The bytes of `list`; nothing where it is not held.
    list: Option<&'static [u8]>,
    /// The call that fails.
    failing: Option<Call>,
}

/// Two jobs, of which the second reads what the first wrote. The list takes two reads; each job takes
/// two more, a create and an append, and one write of its line.
const BACK: Batch = Batch {
    name: "there and back",
    words: &["list"],
    list: Some(b"-fcoff32 a b\n-felf32 b c\n"),
    failing: None,
};

/// A job that is no job, and a listing: a text is written to standard error; a line, the listing
/// and a line are shown.
const BAD_JOB: Batch = Batch {
    name: "a job that is no job, an empty line, and a listing",
    list: Some(b"-fcoff32\n\n-ds a\n"),
    ..BACK
};

/// There is no word.
const NO_WORD: Batch = Batch {
    name: "no word",
    words: &[],
    ..BACK
};

/// A list with a byte that is in no text.
const NO_TEXT: Batch = Batch {
    name: "a byte that is in no text",
    list: Some(b"-ds a\n\xFF\n"),
    ..BACK
};

static LISTS: [Batch; 15] = [
    BACK,
    BAD_JOB,
    Batch {
        name: "an empty list",
        list: Some(b""),
        ..BACK
    },
    Batch {
        name: "blanks and empty lines",
        list: Some(b"\n \n   \n"),
        ..BACK
    },
    Batch {
        name: "blanks around words, and no last newline",
        list: Some(b"\n  -fcoff32   a  b \n\n -felf32 b c"),
        ..BACK
    },
    Batch {
        name: "a tab and a carriage return",
        list: Some(b"-ds\ta\r\n"),
        ..BACK
    },
    Batch {
        name: "a job for another machine, between two",
        list: Some(b"-fcoff32 a b\n-felf64 a d\n-felf32 b c\n"),
        ..BACK
    },
    Batch {
        name: "an input of no format, and a job",
        list: Some(b"-fcoff32 list b\n-fcoff32 a b\n"),
        ..BACK
    },
    Batch {
        name: "the second job first",
        list: Some(b"-felf32 b c\n-fcoff32 a b\n"),
        ..BACK
    },
    Batch {
        name: "a list that its first job overwrites",
        list: Some(b"-fcoff32 a list\n-fcoff32 a b\n"),
        ..BACK
    },
    NO_WORD,
    Batch {
        name: "two words",
        words: &["list", "list"],
        ..BACK
    },
    Batch {
        name: "no list",
        list: None,
        ..BACK
    },
    NO_TEXT,
    Batch {
        name: "a letter that is cut",
        list: Some(b"-ds a\n\xC3"),
        ..BACK
    },
];

/// What fails, the batch, and the call.
static CALLS: [(&str, Batch, Call); 20] = [
    ("no word, and its text fails", NO_WORD, Call::Console(1)),
    (
        "no text, and what is told of it fails",
        NO_TEXT,
        Call::Console(1),
    ),
    ("the text of the bad job fails", BAD_JOB, Call::Console(1)),
    ("the line of the bad job fails", BAD_JOB, Call::Console(2)),
    ("the listing fails", BAD_JOB, Call::Console(3)),
    (
        "the line of the listing job fails",
        BAD_JOB,
        Call::Console(4),
    ),
    ("the line of the first job fails", BACK, Call::Console(1)),
    ("the line of the second job fails", BACK, Call::Console(2)),
    ("a third line would fail", BACK, Call::Console(3)),
    ("the first read of the list fails", BACK, Call::File(1)),
    ("the read that finds its end fails", BACK, Call::File(2)),
    ("the first read of the first job fails", BACK, Call::File(3)),
    ("its second read fails", BACK, Call::File(4)),
    ("its create fails", BACK, Call::File(5)),
    ("its append fails", BACK, Call::File(6)),
    (
        "the first read of the second job fails",
        BACK,
        Call::File(7),
    ),
    ("its second read fails", BACK, Call::File(8)),
    ("its create fails", BACK, Call::File(9)),
    ("its append fails", BACK, Call::File(10)),
    ("an eleventh call would fail", BACK, Call::File(11)),
];

/// The bytes of the two objects.
#[derive(Drop)]
struct Objects {
    elf: Vec<u8>,
    coff: Vec<u8>,
}

impl Objects {
    // the objects that lie where the program runs
    fn stored(rt: &HostRuntime) -> Result<Objects> {
        let [elf, coff] = OBJECTS;
        Ok(Objects {
            elf: bytes_of(rt, elf)?,
            coff: bytes_of(rt, coff)?,
        })
    }

    // what these bytes of a file are
    fn content(&self, file: Option<&[u8]>) -> Content {
        match file {
            None => Content::Absent,
            Some([]) => Content::Empty,
            Some(bytes) if bytes == self.elf.as_slice() => Content::Elf,
            Some(bytes) if bytes == self.coff.as_slice() => Content::Coff,
            Some(bytes) => Content::Other(bytes.len()),
        }
    }
}

// the bytes of the file `name`
fn bytes_of(rt: &HostRuntime, name: &str) -> Result<Vec<u8>> {
    let mut files = RealFiles::new(rt.alloc(), rt);
    match read_file(rt.alloc(), &mut files, name, LIMIT) {
        Ok(bytes) => Ok(bytes),
        Err(fault) => Err(anyhow!("{name}: {fault}")),
    }
}

/// What a file holds.
#[derive(Clone, Copy, Debug)]
enum Content {
    Absent,
    Empty,
    Elf,
    Coff,
    /// So many other bytes.
    Other(usize),
}

impl Display for Content {
    fn fmt<W: Write>(&self, f: &mut Formatter<W>) -> fmt::Result {
        match *self {
            Content::Absent => write!(f, "absent"),
            Content::Empty => write!(f, "empty"),
            Content::Elf => write!(f, "the ELF object"),
            Content::Coff => write!(f, "the COFF object"),
            Content::Other(len) => write!(f, "of {len} bytes"),
        }
    }
}

/// What came of a batch.
#[derive(Debug, Drop)]
struct Outcome {
    status: u8,
    told: String,
    b: Content,
    c: Content,
    shown: String,
}

impl Display for Outcome {
    fn fmt<W: Write>(&self, f: &mut Formatter<W>) -> fmt::Result {
        let (status, told) = (self.status, self.told.as_str().trim_end());
        write!(f, "status {status}, \"{told}\", b {}, c {}", self.b, self.c)?;
        if !self.shown.is_empty() {
            write!(f, ", and shown\n{}", self.shown.as_str().trim_end())?;
        }
        Ok(())
    }
}

// these words
fn words_of(alloc: Global, list: &[&str]) -> Result<Words, NoMemory> {
    let mut words = Words::new(alloc);
    for word in list {
        if words.count() == u32::MAX {
            return Err(NoMemory);
        }
        words.push(word)?;
    }
    Ok(words)
}

impl Batch {
    // the files before the batch
    fn files(&self, alloc: Global, objects: &Objects) -> Result<MemFiles> {
        let mut files = MemFiles::new(alloc);
        files.set("a", objects.elf.as_slice())?;
        if let Some(list) = self.list {
            files.set("list", list)?;
        }
        files.room("list", ROOM)?;
        files.room("b", ROOM)?;
        files.room("c", ROOM)?;
        if let Some(Call::File(call)) = self.failing {
            files.fail_at(call)?;
        }
        Ok(files)
    }

    // the console before the batch
    fn console(&self, alloc: Global) -> Result<MemConsole> {
        let mut console = MemConsole::new(alloc);
        console.room(ROOM, ROOM)?;
        if let Some(Call::Console(call)) = self.failing {
            console.fail_at(call)?;
        }
        Ok(console)
    }

    // runs the batch, and gives what came of it
    fn outcome(&self, alloc: Global, objects: &Objects) -> Result<Outcome> {
        let words = words_of(alloc, self.words)?;
        let mut files = self.files(alloc, objects)?;
        let mut console = self.console(alloc)?;
        let status = run_batch_by(alloc, &Objconv, &words, &mut files, &mut console);
        Ok(Outcome {
            status,
            told: String::from_utf8(console.told().to_vec(alloc)?)?,
            b: objects.content(files.file("b")),
            c: objects.content(files.file("c")),
            shown: String::from_utf8(console.shown().to_vec(alloc)?)?,
        })
    }
}

/// Files of 67,108,865 zeros.
#[derive(Drop)]
struct Zeros;

impl Files for Zeros {
    ghost held = { λ _. None };

    ghost read_faults = { λ _. 2 ^ 64 - 1 };

    ghost write_faults = { λ _. 2 ^ 64 - 1 };

    fn read_at(&mut self, _name: &str, at: u64, to: &mut [u8]) -> Result<usize, Failed> {
        let rest = (LIMIT + 1).saturating_sub(at);
        if rest < to.len() as u64 {
            Ok(rest as usize)
        } else {
            Ok(to.len())
        }
    }

    fn create(&mut self, _name: &str) -> Result<(), Failed> {
        Err(Failed)
    }

    fn append(&mut self, _name: &str, _piece: &[u8]) -> Result<usize, Failed> {
        Err(Failed)
    }
}

// a list of one byte too many
fn show_long(rt: &HostRuntime, alloc: Global) -> Result<()> {
    let words = words_of(alloc, BACK.words)?;
    let mut console = BACK.console(alloc)?;
    let status = run_batch_by(alloc, &Objconv, &words, &mut Zeros, &mut console);
    let told = String::from_utf8(console.told().to_vec(alloc)?)?;
    let told = told.as_str().trim_end();
    println!(rt; "a list of 67,108,865 bytes: status {status}, \"{told}\"")?;
    Ok(())
}

/// Runs each batch, and prints a line for it.
pub fn show_batches(rt: &HostRuntime, alloc: Global) -> Result<()> {
    let objects = Objects::stored(rt)?;
    for batch in &LISTS {
        println!(rt; "{}: {}", batch.name, batch.outcome(alloc, &objects)?)?;
    }
    for (name, batch, call) in CALLS {
        let failing = Batch {
            failing: Some(call),
            ..batch
        };
        println!(rt; "{name}: {}", failing.outcome(alloc, &objects)?)?;
    }
    show_long(rt, alloc)
}
