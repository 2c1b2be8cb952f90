//! The sizes of pieces and buffers, which no clause gives, and a caller that needs the clauses
//! alone.

ghost use Rattle.std.specs.Prelude.{◌≡◌, ℕ, ◌+◌, ◌-◌, ◌^◌, ◌<◌, ◌≤◌, [], None, Some, Ok, true, IfOk, IsSomeAnd, length, min};
ghost use Rattle.std.specs.Option.{ForSome};
ghost use Rattle.oc_outside.specs.Held.{file_of, with_file, beside_of};

use oc_outside::{Failed, Files, Sink, put_all, read_file, write_file};
use std::alloc::Global;
use std::test::Fail;

/// A sink that takes at most 3,000 bytes of a piece, and keeps the length of each.
#[derive(Drop)]
struct Slow {
    given: Vec<usize>,
    faults: u64,
}

impl Sink for Slow {
    ghost taken = { λ _. None };

    ghost faults = { λ s. s.faults };

    ghost beside = { λ _. beside_of [] 0 None };

    ghost borrow = { λ _. None };

    #[tactic(auto, unfolding(oc_outside::specs::Texts::grown))]
    fn put(&mut self, piece: &[u8]) -> Result<usize, Failed> {
        match self.given.push(piece.len()) {
            Ok(()) => Ok(piece.len().min(3000)),
            Err(_) => {
                self.faults = self.faults.saturating_add(1);
                Err(Failed)
            }
        }
    }
}

/// What is left after 3,000, 6,000 and 9,000 of 10,000 bytes is put again, never more than 4,096 at
/// once.
#[test]
fn pieces_of_4096_bytes(rt: HostRuntime) -> Result<(), Fail> {
    let bytes = vec![in rt.alloc(); 7u8; 10_000]?;
    let mut slow = Slow {
        given: Vec::new(rt.alloc()),
        faults: 0,
    };
    put_all(&mut slow, bytes.as_slice())?;
    assert_eq!(rt; slow.given.as_slice(), [4096, 4096, 4000, 1000].as_slice());
    Ok(())
}

/// Files of which each read fills the buffer, so that none has an end. It counts the reads.
#[derive(Drop)]
struct Endless {
    reads: u64,
}

impl Files for Endless {
    ghost held = { λ _. None };

    ghost read_faults = { λ _. 0 };

    ghost write_faults = { λ _. 0 };

    fn read_at(&mut self, _name: &str, _at: u64, to: &mut [u8]) -> Result<usize, Failed> {
        self.reads = self.reads.saturating_add(1);
        Ok(to.len())
    }

    fn create(&mut self, _name: &str) -> Result<(), Failed> {
        Ok(())
    }

    fn append(&mut self, _name: &str, piece: &[u8]) -> Result<usize, Failed> {
        Ok(piece.len())
    }
}

/// The read that passes the limit is the last one, on both sides of the border.
#[test]
fn reading_stops_past_the_limit(rt: HostRuntime) -> Result<(), Fail> {
    for (limit, reads) in [(0, 1), (131_071, 2), (131_072, 3)] {
        let mut files = Endless { reads: 0 };
        let bytes = read_file(rt.alloc(), &mut files, "a", limit)?;
        let got = (files.reads, bytes.len() as u64);
        assert_eq!(rt; got, (reads, reads * 65_536), "for the limit {limit}");
    }
    Ok(())
}

/// Copies a file of up to `limit` bytes, and gives whether it did. Its clause follows from those of
/// the two loops.
fn copies<F: Files>(alloc: Global, files: &mut F, from: &str, to: &str, limit: u64) -> bool
    ensures { result ≡ true → ForSome (F.held files.old) (λ m.
        IsSomeAnd (file_of from.now m) (λ file. F.held files.new ≡ Some (with_file to.now file m))) }
{
    let Ok(bytes) = read_file(alloc, files, from, limit) else {
        return false;
    };
    if bytes.len() as u64 > limit {
        return false;
    }
    write_file(files, to, bytes.as_slice()).is_ok()
}
