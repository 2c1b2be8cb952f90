//! Words, and what the description of the command says of them.

use oc_base::{Format, NoMemory};
use oc_names::Choice;
use oc_words::{Job, WordCode, WordFault, Words, read_words, word_message};
use std::alloc::Global;
use std::test::Fail;

/// What words ask for.
#[derive(Clone, Copy, Debug)]
enum Want {
    /// The word at an index is the first at fault.
    Bad(u32, WordCode),
    /// A conversion: the target, how many edits, both choices, and the names of files.
    Convert(Format, usize, Choice, Choice, &'static str, &'static str),
    /// The symbols of a file.
    Symbols(&'static str),
    /// A made object: how many functions, the target, and the name of the file.
    Make(u32, Format, &'static str),
}

/// A command's words, and what they ask for.
#[derive(Clone, Copy, Debug)]
struct Case {
    words: &'static [&'static str],
    want: Want,
}

/// The cases of the description, with the text of the first fault among them.
const CASES: [Case; 15] = [
    Case {
        words: &[],
        want: Want::Bad(0, WordCode::MissingTarget),
    },
    Case {
        words: &["-fcoff32", "a", "a"],
        want: Want::Bad(2, WordCode::SameFile),
    },
    Case {
        words: &["-fcoff32", "-zz", "a", "b"],
        want: Want::Bad(1, WordCode::UnknownOption),
    },
    Case {
        words: &["-fcoff32", "-nr:a:b", "a", "b"],
        want: Want::Convert(Format::Coff32, 1, Choice::Auto, Choice::Auto, "a", "b"),
    },
    Case {
        words: &[
            "a",
            "-nu",
            "-np:my_:your_",
            "-ar:my_f:start",
            "-fmac64",
            "b",
            "--keep-exceptions",
        ],
        want: Want::Convert(Format::Mac64, 3, Choice::Auto, Choice::Keep, "a", "b"),
    },
    Case {
        words: &["-fomf", "-fomf"],
        want: Want::Bad(1, WordCode::SecondTarget),
    },
    Case {
        words: &["-felf64", "--strip-debug", "a", "--keep-debug", "-nr"],
        want: Want::Bad(3, WordCode::Conflict),
    },
    Case {
        words: &["-felf64", "-nr:a", "a", "b", "c"],
        want: Want::Bad(1, WordCode::BadPair),
    },
    Case {
        words: &["-ds", "a"],
        want: Want::Symbols("a"),
    },
    Case {
        words: &["-ds", "-a", "b"],
        want: Want::Bad(2, WordCode::ExtraName),
    },
    Case {
        words: &["--make=100000", "elf32", "b"],
        want: Want::Make(100_000, Format::Elf32, "b"),
    },
    Case {
        words: &["-fbigcoff64", "a", "b"],
        want: Want::Convert(Format::BigCoff64, 0, Choice::Auto, Choice::Auto, "a", "b"),
    },
    Case {
        words: &["a", "-fbigelf32", "b"],
        want: Want::Convert(Format::BigElf32, 0, Choice::Auto, Choice::Auto, "a", "b"),
    },
    Case {
        words: &["--make=2", "bigcoff32", "b"],
        want: Want::Bad(1, WordCode::BadTarget),
    },
    Case {
        words: &["--make=100001", "elf32", "b"],
        want: Want::Bad(0, WordCode::BadNumber),
    },
];

/// The words of a list of fewer than eight.
fn words_of(alloc: Global, list: &[&str]) -> Result<Words, NoMemory> {
    let mut words = Words::new(alloc);
    for word in list {
        if words.count() < 8 {
            words.push(word)?;
        }
    }
    Ok(words)
}

/// Whether the words were read as what they ask for.
fn is_met(read: &Result<Job, WordFault>, want: Want) -> bool {
    match (read, want) {
        (Err(fault), Want::Bad(index, code)) => *fault == WordFault::Bad { index, code },
        (
            Ok(
                Job::Convert {
                    to,
                    edits,
                    input,
                    output,
                },
            ),
            Want::Convert(format, count, debug, exceptions, from, into),
        ) => {
            *to == format
                && edits.as_slice().len() == count
                && edits.debug() == debug
                && edits.exceptions() == exceptions
                && input.as_str() == from
                && output.as_str() == into
        }
        (Ok(Job::Symbols { input }), Want::Symbols(from)) => input.as_str() == from,
        (Ok(Job::Make { count, to, output }), Want::Make(number, format, into)) => {
            *count == number && *to == format && output.as_str() == into
        }
        _ => false,
    }
}

/// Each case is read as the description says.
#[test]
fn words_are_read(rt: HostRuntime) -> Result<(), Fail> {
    for case in &CASES {
        let words = words_of(rt.alloc(), case.words)?;
        let read = read_words(rt.alloc(), &words);
        let met = is_met(&read, case.want);
        assert!(rt; met, "{case:?} was read as {read:?}");
    }
    Ok(())
}

/// The text for a word at fault.
#[test]
fn word_is_told(rt: HostRuntime) -> Result<(), Fail> {
    let text = word_message(rt.alloc(), 12, WordCode::SameFile)?;
    assert_eq!(rt; text.as_slice(), b"objconv: word 12: SameFile\n".as_slice());
    Ok(())
}
