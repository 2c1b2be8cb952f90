//! Files of the operating system.
ghost use Rattle.std.specs.Prelude.{◌≡◌, ◌≤◌, ◌+◌, ◌-◌, ◌^◌, ◌<◌, Err, Ok, OnErr, OnOk, min};

use oc_outside::{Failed, Files, LIMIT, ReadFault, RealFiles, read_file, write_file};
use std::alloc::Global;
use std::test::Fail;
use std::{fs, process, rt};

// the path of a file that no other test has
fn path(rt: &HostRuntime, word: &str) -> Result<String, Fail> {
    let id = process::id(rt.process());
    let path = format!(in rt.alloc(); "/tmp/oc_outside-{id}-{word}")?;
    Ok(path)
}

/// Writes a file and reads it. Its clauses say that no fault is counted where both succeed.
fn there_and_back<R: rt::Files>(
    alloc: Global,
    files: &mut RealFiles<'_, R>,
    name: &str,
    bytes: &[u8],
) -> (Result<(), Failed>, Result<Vec<u8>, ReadFault>)
    ensures written { OnOk result.0 (files.new.write_faults ≡ files.old.write_faults) }
    ensures read { OnOk result.1 (files.new.read_faults ≡ files.old.read_faults) }
{
    let written = write_file(files, name, bytes);
    let read = read_file(alloc, files, name, LIMIT);
    (written, read)
}

/// 10,000 bytes are three pieces.
#[test]
fn real_file_there_and_back(rt: HostRuntime) -> Result<(), Fail> {
    let path = path(&rt, "back")?;
    let name = path.as_str();
    let sent = vec![in rt.alloc(); 7u8; 10_000]?;
    let mut files = RealFiles::new(rt.alloc(), &rt);
    let (written, read) = there_and_back(rt.alloc(), &mut files, name, sent.as_slice());
    fs::remove_file(&rt, name)?;
    written?;
    assert!(rt; read?.as_slice() == sent.as_slice());
    Ok(())
}

/// A call on the file, with the answer that is due.
#[derive(Clone, Copy)]
enum Step {
    Write(&'static [u8]),
    Remove,
    Read(u64, Option<u8>),
    ReadFails,
    Append(&'static [u8]),
}

// the byte at a place of the file, if it has one
fn byte_at<F: Files>(files: &mut F, name: &str, at: u64) -> Result<Option<u8>, Failed> {
    let mut to = [0; 1];
    let count = files.read_at(name, at, &mut to)?;
    Ok(if count == 0 { None } else { Some(to[0]) })
}

fn is_met<R: rt::Files>(rt: &R, files: &mut RealFiles<'_, R>, name: &str, step: Step) -> bool {
    match step {
        Step::Write(bytes) => write_file(files, name, bytes).is_ok(),
        Step::Remove => fs::remove_file(rt, name).is_ok(),
        Step::Read(at, due) => byte_at(files, name, at) == Ok(due),
        Step::ReadFails => byte_at(files, name, 0).is_err(),
        Step::Append(piece) => !piece.is_empty() && files.append(name, piece) == Ok(piece.len()),
    }
}

/// The one byte that is read keeps the file, `create` lets it go, and so does its end.
#[test]
fn real_file_is_opened_anew(rt: HostRuntime) -> Result<(), Fail> {
    let path = path(&rt, "anew")?;
    let mut files = RealFiles::new(rt.alloc(), &rt);
    let steps = [
        Step::Write(b"ab"),
        Step::Read(0, Some(b'a')),
        Step::Remove,
        // The file that is open.
        Step::Read(1, Some(b'b')),
        Step::Write(b"c"),
        // The file that was created.
        Step::Read(0, Some(b'c')),
        Step::Read(1, None),
        Step::Remove,
        // After its end.
        Step::ReadFails,
        // The file that is open.
        Step::Append(b"d"),
    ];
    for (i, step) in steps.iter().enumerate() {
        let met = is_met(&rt, &mut files, path.as_str(), *step);
        assert!(rt; met, "step {i}");
    }
    Ok(())
}

/// A file that is not there is a fault of each kind.
#[test]
fn real_file_that_is_absent(rt: HostRuntime) -> Result<(), Fail> {
    let path = path(&rt, "absent")?;
    let name = path.as_str();
    let mut files = RealFiles::new(rt.alloc(), &rt);
    let absent = read_file(rt.alloc(), &mut files, name, LIMIT).err();
    let appended = files.append(name, b"a");
    let created = files.create("/tmp/oc_outside/no/such/folder");
    assert_eq!(rt;
        (absent, appended, created),
        (Some(ReadFault::Input), Err(Failed), Err(Failed))
    );
    Ok(())
}
