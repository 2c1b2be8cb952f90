use thiserror::Error;

/// A call on a file, a stream or a sink failed. What it left and what it counted, the call's
/// clauses say.
#[derive(Clone, Copy, Debug, PartialEq, Eq, Error)]
#[error("a call on the outside world failed")]
pub struct Failed;
