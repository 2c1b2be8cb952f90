//! Streams of the process, one of them closed.

use oc_outside::{Failed, RealConsole, show_all, tell_all};
use std::fmt::Display;
use std::io::{self, Print};
use std::test::Fail;

/// A stream that is closed.
#[derive(Drop)]
struct Closed;

impl Print for Closed {
    fn print<D: Display + Drop>(&self, _value: D) -> io::Result<()> {
        Err(io::Error::from(io::ErrorKind::BrokenPipe))
    }

    fn println<D: Display + Drop>(&self, _value: D) -> io::Result<()> {
        Err(io::Error::from(io::ErrorKind::BrokenPipe))
    }

    fn write_all(&self, _bytes: &[u8]) -> io::Result<()> {
        Err(io::Error::from(io::ErrorKind::BrokenPipe))
    }
}

#[test]
fn closed_stream_takes_nothing(rt: HostRuntime) -> Result<(), Fail> {
    let mut console = RealConsole::new(rt.stdout(), Closed);
    let shown = show_all(&mut console, b"shown\n");
    let told = tell_all(&mut console, b"told\n");
    assert_eq!(rt; (shown, told), (Ok(()), Err(Failed)));
    Ok(())
}
