//! The numbers of the calls on a device in memory, and its counts of those that fail.
ghost use Rattle.std.specs.Prelude.{◌≡◌};
ghost use Rattle.oc_outside.specs.Calls as calls_of;

/// The number of the next call after `calls` calls: it stops at 2^64 - 1.
pub(crate) fn next_call(calls: u64) -> u64
    ensures { result ≡ calls_of.next_call calls }
{
    calls.saturating_add(1)
}

/// Whether the call with the number `call` fails whatever it asks: its number is the last, or is
/// among `failing`.
pub(crate) fn is_due(call: u64, failing: &[u64]) -> bool
    ensures { result ≡ calls_of.is_due call failing.now }
{
    call == u64::MAX || failing.contains(&call)
}

/// The count `count` after it rose in the call with the number `call`.
pub(crate) fn risen(call: u64, count: u64) -> u64
    ensures { result ≡ calls_of.risen call count }
{
    if call == u64::MAX {
        u64::MAX
    } else {
        count.saturating_add(1)
    }
}
