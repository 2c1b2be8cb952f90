//! The words of the process.

use crate::words::Words;
use oc_base::NoMemory;
use std::env;

impl Words {
    /// The words that the process was started with, without the program's name. `NoMemory` where memory
    /// ran out, where a word is not UTF-8, and above 2^32 - 1 words. Linear in their bytes.
    pub fn of_process(rt: &HostRuntime) -> Result<Words, NoMemory> {
        let mut words = Words::new(rt.alloc());
        let Ok(args) = env::args(rt) else {
            return Err(NoMemory);
        };
        for word in args.skip(1) {
            if words.count() == u32::MAX {
                return Err(NoMemory);
            }
            words.push(word.as_str())?;
        }
        Ok(words)
    }
}
