//! The borders of the two streams in memory. Expected answers follow from the documentation of each call, by hand.
ghost use Rattle.std.specs.Prelude.{◌≡◌, ◌++◌, OnOk};

use oc_base::NoMemory;
use oc_outside::{Console, Failed, MemConsole, show_all, tell_all};
use std::alloc::Global;
use std::process::Abort;
use std::test::Fail;

/// A call, with the answer that is due.
#[derive(Clone, Copy)]
enum Step {
    Room(u64, u64),
    Out(&'static [u8], Result<usize, Failed>),
    Err(&'static [u8], Result<usize, Failed>),
}

/// The calls that are set to fail, the steps, and what the two streams hold at the end.
struct Case {
    failing: &'static [u64],
    steps: &'static [Step],
    shown: &'static [u8],
    told: &'static [u8],
}

fn is_met(console: &mut MemConsole, step: Step) -> Result<bool, NoMemory> {
    match step {
        Step::Room(out, err) => {
            console.room(out, err)?;
            Ok(true)
        }
        Step::Out(piece, due) => Ok(!piece.is_empty() && console.out(piece) == due),
        Step::Err(piece, due) => Ok(!piece.is_empty() && console.err(piece) == due),
    }
}

/// Runs the steps on new streams of which these calls are set to fail.
fn run(alloc: Global, rt: &impl Abort, case: &Case) -> Result<MemConsole, NoMemory> {
    let mut console = MemConsole::new(alloc);
    for call in case.failing {
        console.fail_at(*call)?;
    }
    for (i, step) in case.steps.iter().enumerate() {
        let met = is_met(&mut console, *step)?;
        assert!(rt; met, "step {i}");
    }
    Ok(console)
}

/// Texts end where their rooms do.
const ROOMS: Case = Case {
    failing: &[],
    steps: &[
        Step::Out(b"a", Err(Failed)),
        Step::Err(b"a", Err(Failed)),
        // Each room is raised, and neither is lowered.
        Step::Room(4, 2),
        Step::Room(1, 3),
        Step::Out(b"12", Ok(2)),
        Step::Out(b"345", Err(Failed)),
        Step::Err(b"1234", Err(Failed)),
        Step::Out(b"34", Ok(2)),
        Step::Err(b"err", Ok(3)),
    ],
    shown: b"1234",
    told: b"err",
};

/// Calls fail by their number; call 4 is set to fail twice.
const FAILING: Case = Case {
    failing: &[0, 2, 4, 4],
    steps: &[
        Step::Room(9, 9),
        Step::Err(b"a", Ok(1)),
        Step::Out(b"b", Err(Failed)),
        Step::Out(b"c", Ok(1)),
        Step::Err(b"d", Err(Failed)),
        Step::Err(b"e", Ok(1)),
    ],
    shown: b"c",
    told: b"ae",
};

#[test]
fn streams_in_memory(rt: HostRuntime) -> Result<(), Fail> {
    for case in &[ROOMS, FAILING] {
        let console = run(rt.alloc(), &rt, case)?;
        assert_eq!(rt; (console.shown(), console.told()), (case.shown, case.told));
    }
    Ok(())
}

/// Tells a text by the call for all kinds of streams. At streams in memory its clauses say what
/// they hold.
#[tactic(auto, unfolding(oc_outside::specs::Texts::grown))]
fn tell(console: &mut MemConsole, text: &[u8]) -> Result<(), Failed>
    ensures told { OnOk result (console.new.told ≡ console.old.told ++ text.now) }
    ensures shown { console.new.shown ≡ console.old.shown }
{
    tell_all(console, text)
}

/// The second piece of 4,096 bytes passes a room of 8,191, and nothing of it is written.
#[test]
fn second_piece_passes_the_room(rt: HostRuntime) -> Result<(), Fail> {
    let text = vec![in rt.alloc(); b'x'; 10_000]?;
    let mut console = MemConsole::new(rt.alloc());
    console.room(10_000, 8_191)?;
    let told = tell(&mut console, text.as_slice());
    let shown = show_all(&mut console, text.as_slice());
    assert_eq!(rt;
        (told, console.told().len(), shown, console.shown().len()),
        (Err(Failed), 4_096, Ok(()), 10_000)
    );
    Ok(())
}
