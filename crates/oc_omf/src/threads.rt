//! The threads that are in force.
ghost use Rattle.std.specs.Prelude.{◌≡◌, ◌<◌, []};
ghost use Rattle.oc_omf.specs.Known.{AreInForce, IsThreadTaken, thread_in};

use crate::structures::{Method, Thread};

/// How many threads frames have, and targets.
const THREADS: usize = 4;

/// The threads in force for frames and for targets, by their numbers.
#[derive(Clone, Copy, Drop)]
pub struct Threads {
    frames: [Option<Method>; THREADS],
    targets: [Option<Method>; THREADS],
}

impl Threads {
    /// None in force. Constant time.
    pub fn new() -> Threads
        ensures { AreInForce [] result }
    {
        Threads {
            frames: [None; THREADS],
            targets: [None; THREADS],
        }
    }

    /// The thread of that number for frames, or else for targets, if there is one. Constant time.
    pub fn get(&self, frame: bool, number: u8) -> Option<Method>
        ensures { result ≡ thread_in self.now frame number }
    {
        let threads = if frame { &self.frames } else { &self.targets };
        match threads.get(usize::from(number)) {
            Some(thread) => *thread,
            None => None,
        }
    }

    /// Takes up a thread, which is in force from here on. Constant time.
    pub fn take_up(&mut self, thread: Thread)
        requires { thread.number < 4 }
        ensures { IsThreadTaken self.old thread self.new }
    {
        let number = usize::from(thread.number);
        if thread.frame {
            self.frames[number] = Some(thread.method);
        } else {
            self.targets[number] = Some(thread.method);
        }
    }
}
