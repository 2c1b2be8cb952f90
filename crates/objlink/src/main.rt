//! The command `objlink`.
#![tactic(auto)]

mod command;

use command::run_link;
use oc_outside::{RealConsole, RealFiles};
use oc_words::Words;
use std::process::ExitCode;

/// The status where the words find no memory.
const NO_MEMORY: u8 = 7;

fn main(rt: HostRuntime) -> ExitCode {
    let Ok(words) = Words::of_process(&rt) else {
        return ExitCode::from(NO_MEMORY);
    };
    let mut files = RealFiles::new(rt.alloc(), &rt);
    let mut console = RealConsole::new(rt.stdout(), rt.stderr());
    ExitCode::from(run_link(rt.alloc(), &words, &mut files, &mut console))
}
