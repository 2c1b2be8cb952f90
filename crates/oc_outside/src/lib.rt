//! The outside world as traits: files, the two standard streams and sinks, with the loops over them.
#![tactic(auto)]

mod calls;
mod console;
mod console_sinks;
mod failed;
mod file_sink;
mod files;
mod mem_console;
mod mem_files;
mod page;
mod reading;
mod real_console;
mod real_files;
mod sink;
mod slot;
mod slots;
mod telling;
mod writing;

pub use console::Console;
pub use failed::Failed;
pub use file_sink::FileSink;
pub use files::Files;
pub use mem_console::MemConsole;
pub use mem_files::MemFiles;
pub use reading::{BUFFER, LIMIT, ReadFault, read_file};
pub use real_console::RealConsole;
pub use real_files::RealFiles;
pub use sink::Sink;
pub use telling::{show_all, tell_all};
pub use writing::{PIECE, put_all, write_file};
