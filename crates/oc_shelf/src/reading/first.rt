//! The first of two faults.
ghost use Rattle.std.specs.Prelude.{◌≡◌};
ghost use Rattle.oc_linking.specs.Numbers.{or_else};

use oc_base::Fault;

/// The first of two faults that are in their order. Constant time.
pub fn earlier(first: Option<Fault>, second: Option<Fault>) -> Option<Fault>
    ensures { result ≡ or_else first second }
{
    match first {
        Some(fault) => Some(fault),
        None => second,
    }
}
