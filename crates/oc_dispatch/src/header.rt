//! Refusals of the file header.
ghost use Rattle.std.specs.Prelude.{◌≡◌};
ghost use Rattle.oc_convert.specs.Dispatched as dispatched;

use oc_base::{Code, Phase, Spot, Stop};

/// The refusal of a file for its header, with this code.
pub(crate) fn header_refusal(code: Code) -> Stop
    ensures { result ≡ Stop.Refused (dispatched.header_refusal code) }
{
    let header = Spot {
        phase: Phase::Header,
        index: 0,
        place: 0,
    };
    Stop::Refused(header.fault(code))
}
