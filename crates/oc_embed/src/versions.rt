//! The version of the calls.
ghost use Rattle.std.specs.Prelude.{◌≡◌};
ghost use Rattle.oc_embed.specs.Version.{number};

/// The version of the calls, 1.0.0: ten thousand times the first number, a hundred times the second, and the third.
pub fn version() -> u32
    ensures { result ≡ number 1 0 0 }
{
    10_000
}
