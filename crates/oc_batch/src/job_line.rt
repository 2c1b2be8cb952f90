//! The line of a job.
ghost use Rattle.std.specs.Prelude.{◌≡◌, ◌++◌, ◌+◌, ◌≤◌, length};
ghost use Rattle.arrayvec.specs.ArrayVec.{array_vec_len};
ghost use Rattle.oc_batch.specs.Texts.{job_line};

use arrayvec::ArrayVec;
use itoa::Buffer;

/// How many bytes the line of a job has, at most: 4, 20, 2, 3 and 1.
const SIZE: usize = 30;

/// The line of a job.
pub(crate) type Line = ArrayVec<u8, SIZE>;

// puts a text at the end of the line
fn put(line: &mut Line, text: &str)
    requires { length line.old.items + length text.now ≤ SIZE }
    ensures { line.new.items ≡ line.old.items ++ text.now }
{
    for byte in text.as_bytes() {
        line.push(*byte);
    }
}

/// The line of the job with this number and status: `job NUMBER: STATUS` and a newline. Takes no memory.
#[tactic(auto, unfolding(crate::specs::Texts::job_line))]
pub(crate) fn job_line(number: u64, status: u8) -> Line
    ensures { result.items ≡ job_line number status }
{
    let mut digits = Buffer::new();
    let mut line = Line::new();
    put(&mut line, "job ");
    put(&mut line, digits.format(number));
    put(&mut line, ": ");
    put(&mut line, digits.format(status));
    put(&mut line, "\n");
    line
}
