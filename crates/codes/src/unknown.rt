// A byte that is read as a code, and is none.
use thiserror::Error;

#[derive(Clone, Copy, Debug, PartialEq, Eq, Error)]
#[error("{0:02X} is no code of this kind")]
pub struct UnknownCode(pub u8);
