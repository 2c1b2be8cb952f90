//! The outside world, in memory and of the system.
mod mem_console;
mod mem_files;
mod pieces;
mod real_console;
mod real_files;
