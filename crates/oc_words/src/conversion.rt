//! The words of a conversion.
ghost use Rattle.std.specs.Prelude.{◌≡◌, IfErr, IfOk, Ok};
ghost use Rattle.oc_words.specs.Faults.{IsFaultOf};
ghost use Rattle.oc_words.specs.Jobs.{conversion_of};
ghost use Rattle.oc_words.specs.Readings.{HasRead};

use crate::fault::WordFault;
use crate::job::Job;
use crate::option::said_by;
use crate::reading::Reading;
use crate::words::Words;
use std::alloc::Global;

// what all the words say, or the first that is at fault
fn read_all(alloc: Global, words: &Words) -> Result<Reading, WordFault>
    ensures ok { IfOk result (HasRead words.now) }
    ensures err { IfErr result (IsFaultOf (conversion_of words.now)) }
{
    let mut reading = Reading::new(alloc);
    for index in 0..words.count() {
        let word = words.word(index);
        let said = said_by(alloc, word)?;
        reading = reading.with_said(alloc, index, word, said)?;
    }
    Ok(reading)
}

/// The conversion that the words ask for, or the first word at fault. Linear in the words' bytes.
pub(crate) fn read_conversion(alloc: Global, words: &Words) -> Result<Job, WordFault>
    ensures ok { IfOk result (λ job. conversion_of words.now ≡ Ok job) }
    ensures err { IfErr result (IsFaultOf (conversion_of words.now)) }
{
    let reading = read_all(alloc, words)?;
    reading.finish(words.count())
}
