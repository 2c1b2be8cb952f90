//! One run of the command over a file `a` in memory, with room for a file `b`.
use anyhow::Result;
use objconv::{Words, run};
use oc_base::NoMemory;
use oc_outside::{MemConsole, MemFiles};
use std::alloc::Global;
use std::fmt;
use std::fmt::{Display, Formatter, Write};

/// The input.
const IN: &str = "a";

/// The output.
pub const OUT: &str = "b";

/// How many bytes the output may grow to.
const ROOM: u64 = 7_000_000;

/// How many bytes each text on the console may grow to.
const TEXT_ROOM: u64 = 1_000_000;

/// A call of a device, by its number, counted from 1.
#[derive(Clone, Copy)]
pub enum Call {
    File(u64),
    Console(u64),
}

/// What is run.
#[derive(Clone, Copy)]
pub struct Run<'a> {
    pub words: &'a Words,
    /// The bytes of IN.
    pub input: &'a [u8],
    /// The call that fails.
    pub failing: Option<Call>,
    /// The bytes with which OUT is compared.
    pub want: &'a [u8],
}

impl<'a> Run<'a> {
    /// A run where no call fails and nothing is to be written.
    pub fn of(words: &'a Words, input: &'a [u8]) -> Run<'a> {
        Run {
            words,
            input,
            failing: None,
            want: &[],
        }
    }

    /// Runs the command, and gives what came of it.
    pub fn outcome(&self, alloc: Global) -> Result<Outcome> {
        let (outcome, _files) = self.ended(alloc)?;
        Ok(outcome)
    }

    /// The same, with the files as they are then.
    pub fn ended(&self, alloc: Global) -> Result<(Outcome, MemFiles)> {
        let mut files = MemFiles::new(alloc);
        files.set(IN, self.input)?;
        files.room(OUT, ROOM)?;
        let mut console = MemConsole::new(alloc);
        console.room(TEXT_ROOM, TEXT_ROOM)?;
        match self.failing {
            Some(Call::File(call)) => files.fail_at(call)?,
            Some(Call::Console(call)) => console.fail_at(call)?,
            None => {}
        }
        let status = run(alloc, self.words, &mut files, &mut console);
        let outcome = Outcome {
            status,
            told: String::from_utf8(console.told().to_vec(alloc)?)?,
            shown: String::from_utf8(console.shown().to_vec(alloc)?)?,
            out: output_of(&files, self.want),
            calm: files.file(IN) == Some(self.input),
        };
        Ok((outcome, files))
    }
}

/// What OUT holds after a run.
#[derive(Clone, Copy, Debug, PartialEq, Eq)]
enum Output {
    Absent,
    Empty,
    Wanted,
    /// So many other bytes, with their sum.
    Other(usize, u64),
}

impl Display for Output {
    fn fmt<W: Write>(&self, f: &mut Formatter<W>) -> fmt::Result {
        match *self {
            Output::Absent => write!(f, "no OUT"),
            Output::Empty => write!(f, "OUT empty"),
            Output::Wanted => write!(f, "OUT as wanted"),
            Output::Other(len, sum) => write!(f, "OUT of {len} bytes with the sum {sum:016x}"),
        }
    }
}

/// What came of a run.
#[derive(Debug, PartialEq, Eq, Drop)]
pub struct Outcome {
    status: u8,
    told: String,
    shown: String,
    out: Output,
    /// Whether IN is as it was.
    calm: bool,
}

impl Display for Outcome {
    fn fmt<W: Write>(&self, f: &mut Formatter<W>) -> fmt::Result {
        let (status, told, out) = (self.status, self.told.as_str().trim_end(), self.out);
        write!(f, "status {status}, \"{told}\", {out}")?;
        if !self.calm {
            write!(f, ", and IN changed")?;
        }
        if !self.shown.is_empty() {
            write!(f, ", and shown\n{}", self.shown.as_str().trim_end())?;
        }
        Ok(())
    }
}

/// Adds a word.
pub fn add_word(words: &mut Words, word: &str) -> Result<(), NoMemory> {
    if words.count() == u32::MAX {
        return Err(NoMemory);
    }
    words.push(word)
}

/// These words.
pub fn words_of(alloc: Global, list: &[&str]) -> Result<Words, NoMemory> {
    let mut words = Words::new(alloc);
    for word in list {
        add_word(&mut words, word)?;
    }
    Ok(words)
}

// what the files hold under OUT
fn output_of(files: &MemFiles, want: &[u8]) -> Output {
    match files.file(OUT) {
        None => Output::Absent,
        Some([]) => Output::Empty,
        Some(out) if out == want => Output::Wanted,
        Some(out) => Output::Other(out.len(), sum_of(out)),
    }
}

// FNV-1a of 64 bits
fn sum_of(bytes: &[u8]) -> u64 {
    let mut sum = 0xCBF2_9CE4_8422_2325_u64;
    for byte in bytes {
        sum = (sum ^ u64::from(*byte)).wrapping_mul(0x0100_0000_01B3);
    }
    sum
}
