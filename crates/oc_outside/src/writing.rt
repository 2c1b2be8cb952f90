ghost use Rattle.std.specs.Prelude.{◌≡◌, ℕ, ◌+◌, ◌-◌, ◌^◌, ◌<◌, ◌≤◌, OnOk, OnErr};
ghost use Rattle.std.specs.Option.{option_map};
ghost use Rattle.oc_outside.specs.Causes.{Rose};
ghost use Rattle.oc_outside.specs.Held.{with_file, HasPart};
ghost use Rattle.oc_outside.specs.Texts.{grown, TakesPrefix};

use crate::failed::Failed;
use crate::file_sink::FileSink;
use crate::files::Files;
use crate::sink::Sink;

/// How many bytes a sink or a stream is given at once, at most.
pub const PIECE: usize = 4096;

/// Puts all the bytes, in order, in pieces of `PIECE` bytes, the last one shorter. What a call did
/// not take is put again.
///
/// After Failed the sink took some prefix of the bytes, and its count rose. Takes no memory.
pub fn put_all<S: Sink>(sink: &mut S, bytes: &[u8]) -> Result<(), Failed>
    ensures ok { OnOk result (S.taken sink.new ≡ grown bytes.now (S.taken sink.old)) }
    ensures err { OnErr result (TakesPrefix bytes.now (S.taken sink.old) (S.taken sink.new)) }
    ensures counts { S.faults sink.old ≤ S.faults sink.new }
    ensures steady { OnOk result (S.faults sink.new ≡ S.faults sink.old) }
    ensures cause { OnErr result (Rose (S.faults sink.old) (S.faults sink.new)) }
    ensures beside { S.beside sink.new ≡ S.beside sink.old }
    ensures borrow { S.borrow sink.new ≡ S.borrow sink.old }
{
    let mut at = 0;
    'pieces: while at < bytes.len() {
        let end = bytes.len().min(at.saturating_add(PIECE));
        let piece = &bytes[at..end];
        let count = sink.put(piece)?;
        at += count;
    }
    Ok(())
}

/// Writes the file `name`, so that it holds these bytes and nothing else. All other files stay.
///
/// After Failed the file is as it was or holds some prefix of the bytes, and the count of writes
/// rose. Takes no memory.
pub fn write_file<F: Files>(files: &mut F, name: &str, bytes: &[u8]) -> Result<(), Failed>
    ensures ok { OnOk result (F.held files.new ≡ option_map (with_file name.now bytes.now) (F.held files.old)) }
    ensures err { OnErr result (HasPart name.now bytes.now (F.held files.old) (F.held files.new)) }
    ensures counts { F.write_faults files.old ≤ F.write_faults files.new }
    ensures reads { F.read_faults files.new ≡ F.read_faults files.old }
    ensures steady { OnOk result (F.write_faults files.new ≡ F.write_faults files.old) }
    ensures cause { OnErr result (Rose (F.write_faults files.old) (F.write_faults files.new)) }
{
    files.create(name)?;
    let mut sink = FileSink::new(files, name);
    put_all(&mut sink, bytes)
}
