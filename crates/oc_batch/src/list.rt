//! The text of a list, and its jobs.
ghost use Rattle.std.specs.Prelude.{◌≡◌, ◌++◌, ◌∷◌, [], ◌<◌, ◌≤◌, ◌-◌, ◌^◌, length, filter, IfOk, OnOk};
ghost use Rattle.oc_base.specs.declared.limits.TheConstants.{MOST_INPUT};
ghost use Rattle.oc_batch.specs.Lists.{is_filled, jobs_in, words_in};

use oc_base::NoMemory;
use oc_words::Words;
use std::alloc::Global;

// adds a word after the others, unless it is empty
fn add_word(words: &mut Words, word: &str) -> Result<(), NoMemory>
    requires { length words.old < 2 ^ 32 - 1 }
    ensures { OnOk result (words.new ≡ words.old ++ filter is_filled (word.now ∷ [])) }
{
    if word.is_empty() {
        return Ok(());
    }
    words.push(word)
}

// the words of a line
fn words_of(alloc: Global, line: &str) -> Result<Words, NoMemory>
    requires { length line.now ≤ MOST_INPUT }
    ensures { IfOk result (λ words. words ≡ words_in line.now) }
{
    let mut words = Words::new(alloc);
    for word in line.split(' ') {
        add_word(&mut words, word)?;
    }
    Ok(words)
}

// adds a job after the others, where it has a word
fn add_job(jobs: &mut Vec<Words>, words: Words) -> Result<(), NoMemory>
    ensures { OnOk result (jobs.new.items ≡ jobs.old.items ++ filter is_filled (words ∷ [])) }
{
    if words.count() == 0 {
        return Ok(());
    }
    jobs.push(words)?;
    Ok(())
}

/// The jobs of a text: the words of each line that has a word. A line ends with a newline, and
/// blanks part its words; there is no quoting. `NoMemory` where memory ran out. Linear in the text, of
/// which the words are copies.
#[tactic(auto, unfolding(crate::specs::Lists::jobs_in))]
pub(crate) fn jobs_of(alloc: Global, text: &str) -> Result<Vec<Words>, NoMemory>
    requires { length text.now ≤ MOST_INPUT }
    ensures { IfOk result (λ jobs. jobs.items ≡ jobs_in text.now) }
{
    let mut jobs = Vec::new(alloc);
    for line in text.split('\n') {
        let words = words_of(alloc, line)?;
        add_job(&mut jobs, words)?;
    }
    Ok(jobs)
}
