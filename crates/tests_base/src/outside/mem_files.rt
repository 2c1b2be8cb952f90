//! The borders of files in memory. Expected answers follow from the documentation of each call, by hand.
ghost use Rattle.std.specs.Prelude.{◌≡◌, ◌≤◌, Some, true, length, OnOk, IfOk, IfSome, vec_len};
ghost use Rattle.oc_outside.specs.Held.{file_of, with_file};

use oc_base::NoMemory;
use oc_outside::{Failed, Files, LIMIT, MemFiles, ReadFault, read_file, write_file};
use std::alloc::{AllocError, Global};
use std::process::Abort;
use std::test::Fail;

/// The file that all steps are about.
const NAME: &str = "f";

/// A call on the file, or a look at it, with the answer that is due.
#[derive(Clone, Copy)]
enum Step {
    Set(&'static [u8]),
    Room(u64),
    Create(Result<(), Failed>),
    Append(&'static [u8], Result<usize, Failed>),
    Read(u64, Result<usize, Failed>),
    Holds(&'static [u8]),
    Absent,
}

fn holds(files: &MemFiles, bytes: &[u8]) -> bool {
    match files.file(NAME) {
        Some(held) => held == bytes,
        None => false,
    }
}

/// Appends a piece that is not empty to the file where it is held.
fn append(files: &mut MemFiles, piece: &[u8]) -> Option<Result<usize, Failed>> {
    if piece.is_empty() || files.file(NAME).is_none() {
        return None;
    }
    Some(files.append(NAME, piece))
}

fn is_met(files: &mut MemFiles, step: Step) -> Result<bool, NoMemory> {
    match step {
        Step::Set(bytes) => {
            files.set(NAME, bytes)?;
            Ok(true)
        }
        Step::Room(bytes) => {
            files.room(NAME, bytes)?;
            Ok(true)
        }
        Step::Create(due) => Ok(files.create(NAME) == due),
        Step::Append(piece, due) => Ok(append(files, piece) == Some(due)),
        Step::Read(at, due) => Ok(files.read_at(NAME, at, &mut [0; 2]) == due),
        Step::Holds(bytes) => Ok(holds(files, bytes)),
        Step::Absent => Ok(files.file(NAME).is_none()),
    }
}

/// Runs the steps on new files of which these calls are set to fail.
fn run(rt: &impl Abort, alloc: Global, failing: &[u64], steps: &[Step]) -> Result<(), NoMemory> {
    let mut files = MemFiles::new(alloc);
    for call in failing {
        files.fail_at(*call)?;
    }
    for (i, step) in steps.iter().enumerate() {
        let met = is_met(&mut files, *step)?;
        assert!(rt; met, "step {i}");
    }
    Ok(())
}

#[test]
fn file_is_read_in_pieces(rt: HostRuntime) -> Result<(), Fail> {
    let mut files = MemFiles::new(rt.alloc());
    files.set(NAME, b"hello world")?;
    let cases: [(u64, usize, &[u8; 4]); 6] = [
        (0, 4, b"hell"),
        (4, 4, b"o wo"),
        (8, 3, b"rld."),
        (10, 1, b"d..."),
        (11, 0, b"...."),
        (u64::MAX, 0, b"...."),
    ];
    for (at, count, bytes) in cases {
        let mut to = *b"....";
        let read = files.read_at(NAME, at, &mut to);
        assert_eq!(rt; (read, to), (Ok(count), *bytes), "at {at}");
    }
    Ok(())
}

/// Names without a file or room fail.
const ABSENT: [Step; 10] = [
    Step::Absent,
    Step::Read(0, Err(Failed)),
    // No room.
    Step::Create(Err(Failed)),
    Step::Absent,
    // Room makes no file.
    Step::Room(0),
    Step::Absent,
    Step::Read(0, Err(Failed)),
    Step::Create(Ok(())),
    Step::Read(0, Ok(0)),
    Step::Holds(b""),
];

/// A file takes bytes up to its room, and no more.
const ROOM: [Step; 10] = [
    Step::Room(0),
    Step::Create(Ok(())),
    Step::Append(b"a", Err(Failed)),
    Step::Room(5),
    Step::Append(b"abc", Ok(3)),
    // One byte past the room: nothing of the piece is taken.
    Step::Append(b"def", Err(Failed)),
    Step::Holds(b"abc"),
    Step::Append(b"de", Ok(2)),
    Step::Append(b"f", Err(Failed)),
    Step::Holds(b"abcde"),
];

/// Rooms rise and never fall.
const RISING: [Step; 10] = [
    Step::Room(5),
    Step::Room(3),
    Step::Set(b"xy"),
    Step::Append(b"1234", Err(Failed)),
    Step::Append(b"123", Ok(3)),
    Step::Set(b"7 bytes"),
    Step::Holds(b"7 bytes"),
    Step::Append(b"8", Err(Failed)),
    // A file that exists is made empty, and keeps its room.
    Step::Create(Ok(())),
    Step::Append(b"1234567", Ok(7)),
];

/// Calls fail by their number, where 0, 2, 4, 6 and again 6 are set to.
const FAILING: [Step; 13] = [
    // Call 1 finds no file, and is counted as a call.
    Step::Read(0, Err(Failed)),
    Step::Set(b"old"),
    Step::Room(9),
    Step::Read(0, Err(Failed)),
    Step::Read(1, Ok(2)),
    // Call 4: the file is as it was.
    Step::Create(Err(Failed)),
    Step::Holds(b"old"),
    Step::Append(b"er", Ok(2)),
    // Call 6, set to fail twice.
    Step::Append(b"!", Err(Failed)),
    Step::Holds(b"older"),
    Step::Append(b"!", Ok(1)),
    Step::Create(Ok(())),
    Step::Holds(b""),
];

#[test]
fn files_in_memory(rt: HostRuntime) -> Result<(), Fail> {
    let cases: [(&[u64], &[Step]); 4] = [
        (&[], &ABSENT),
        (&[], &ROOM),
        (&[], &RISING),
        (&[0, 2, 4, 6, 6], &FAILING),
    ];
    for (failing, steps) in &cases {
        run(&rt, rt.alloc(), failing, steps)?;
    }
    Ok(())
}

/// Writes a file by the call for all kinds of files. For files in memory its clause says what they
/// hold.
fn write(files: &mut MemFiles, name: &str, bytes: &[u8]) -> Result<(), Failed>
    ensures { OnOk result (files.new.held ≡ with_file name.now bytes.now files.old.held) }
{
    write_file(files, name, bytes)
}

/// Reads a file by the call for all kinds of files, and gives it if it is not longer than the
/// limit.
fn read(alloc: Global, files: &mut MemFiles, name: &str) -> Result<Option<Vec<u8>>, ReadFault>
    ensures { IfOk result (λ read. IfSome read (λ bytes. file_of name.now files.old.held ≡ Some bytes.items)) }
{
    let bytes = read_file(alloc, files, name, LIMIT)?;
    Ok(if bytes.len() as u64 > LIMIT {
        None
    } else {
        Some(bytes)
    })
}

/// So many bytes, of which no 251 in a row repeat one.
fn counted(alloc: Global, len: usize) -> Result<Vec<u8>, AllocError> {
    let mut bytes = Vec::new(alloc);
    for i in 0..len {
        bytes.push((i % 251) as u8)?;
    }
    Ok(bytes)
}

/// The create is call 1 and the fifth append is call 6: the four pieces of 4,096 bytes before it
/// are in the file.
#[test]
fn fifth_append_fails(rt: HostRuntime) -> Result<(), Fail> {
    let bytes = counted(rt.alloc(), 980_128)?;
    let mut files = MemFiles::new(rt.alloc());
    files.room(NAME, 980_128)?;
    files.fail_at(6)?;
    let cut = write(&mut files, NAME, bytes.as_slice());
    let part = read(rt.alloc(), &mut files, NAME)?.ok_or("the file is short")?;
    let done = write(&mut files, NAME, bytes.as_slice());
    let whole = read(rt.alloc(), &mut files, NAME)?.ok_or("the file is short")?;
    let in_order = bytes.as_slice().starts_with(part.as_slice()) && whole == bytes;
    assert_eq!(rt;
        (cut, part.len(), done, in_order),
        (Err(Failed), 16_384, Ok(()), true)
    );
    Ok(())
}
