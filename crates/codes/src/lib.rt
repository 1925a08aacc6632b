// The command bytes that the hub knows, by what carries them. Each code stands in one definition, with its number.
//
// Each kind of code has its own cast and its own table of bytes: both name the cases of one enum, which no generic
// function can. What they promise is one definition, `Decodes`.
#![tactic(auto)]

mod setting;
mod status;
mod unknown;

pub use setting::SettingCode;
pub use status::{BareCode, ComplaintCode, DetailedCode, StatusCode};
pub use unknown::UnknownCode;
