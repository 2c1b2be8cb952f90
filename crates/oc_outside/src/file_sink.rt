ghost use Rattle.std.specs.Prelude.{◌≡◌, Some, IsSome};
ghost use Rattle.std.specs.Option.{ForSome};
ghost use Rattle.oc_outside.specs.Held.{file_of, bytes_of, beside_of};

use crate::failed::Failed;
use crate::files::Files;
use crate::sink::Sink;

/// A file that exists, as a sink: what it takes is appended to the file.
///
/// Its bytes are the file's, its count is that of failed writes, and beside them lie the name, the
/// count of failed reads and all other files.
pub struct FileSink<'f, F: Files> {
    files: &'f mut F,
    name: &'f str,
    ghost there: { ForSome (F.held files.now) (λ m. IsSome (file_of name.now m)) },
}

impl<'f, F: Files> FileSink<'f, F> {
    /// The sink at the end of the file `name`, which is among the files where contracts see those.
    pub fn new(files: &'f mut F, name: &'f str) -> FileSink<'f, F>
        requires { ForSome (F.held files.old) (λ m. IsSome (file_of name.now m)) }
        ensures same_reference { result.files.ghost_name ≡ files.entry.ghost_name }
        ensures files { result.files.now ≡ files.old }
        ensures name { result.name.now ≡ name.now }
    {
        FileSink { files, name }
    }
}

impl<F: Files> Sink for FileSink<'_, F> {
    ghost taken = { λ s. bytes_of s.name.now (F.held s.files.now) };

    ghost faults = { λ s. F.write_faults s.files.now };

    ghost beside = { λ s. beside_of s.name.now (F.read_faults s.files.now) (F.held s.files.now) };

    ghost borrow = { λ s. Some s.files.ghost_name };

    fn put(&mut self, piece: &[u8]) -> Result<usize, Failed> {
        self.files.append(self.name, piece)
    }
}

impl<F: Files> Drop for FileSink<'_, F> {
    fn drop(self)
        ensures { self.exit.0.now ≡ self.entry.files.now }
    {
        let FileSink { files: _, name: _ } = self;
    }
}
