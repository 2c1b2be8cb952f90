ghost use Rattle.std.specs.Prelude.{◌≡◌, ◌≤◌, ◌+◌, ◌-◌, ◌^◌, None, min};

use crate::console::Console;
use crate::failed::Failed;
use std::io::Print;

/// The two standard streams of the process. Contracts do not see what was written.
#[derive(Drop)]
pub struct RealConsole<O: Print, E: Print> {
    out: O,
    err: E,
    out_faults: u64,
    err_faults: u64,
}

impl<O: Print, E: Print> RealConsole<O, E> {
    /// The streams `out` and `err`, with no fault counted so far.
    pub fn new(out: O, err: E) -> RealConsole<O, E>
        ensures out_faults { result.out_faults ≡ 0 }
        ensures err_faults { result.err_faults ≡ 0 }
    {
        RealConsole {
            out,
            err,
            out_faults: 0,
            err_faults: 0,
        }
    }
}

impl<O: Print, E: Print> Console for RealConsole<O, E> {
    ghost shown = { λ _. None };

    ghost told = { λ _. None };

    ghost out_faults = { λ s. s.out_faults };

    ghost err_faults = { λ s. s.err_faults };

    #[tactic(auto, unfolding(crate::specs::Texts::grown))]
    fn out(&mut self, piece: &[u8]) -> Result<usize, Failed> {
        match self.out.write_some(piece) {
            Ok(count) if count > 0 => Ok(count),
            _ => {
                self.out_faults = self.out_faults.saturating_add(1);
                Err(Failed)
            }
        }
    }

    #[tactic(auto, unfolding(crate::specs::Texts::grown))]
    fn err(&mut self, piece: &[u8]) -> Result<usize, Failed> {
        match self.err.write_some(piece) {
            Ok(count) if count > 0 => Ok(count),
            _ => {
                self.err_faults = self.err_faults.saturating_add(1);
                Err(Failed)
            }
        }
    }
}
