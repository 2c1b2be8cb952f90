//! Where the texts of a string table end.
ghost use Rattle.oc_macho.specs.Framed.{EndsTexts};

use memchr::memrchr;

/// The place after the last NUL: each text among the strings begins before it. 0 where there is
/// none. Linear in the bytes after the last NUL.
pub(crate) fn text_end(strings: &[u8]) -> usize
    ensures { EndsTexts strings.now result }
{
    match memrchr(0, strings) {
        Some(last) => last + 1,
        None => 0,
    }
}
