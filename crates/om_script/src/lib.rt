//! The script language: what people write is read as scripts, and scripts are written as text again.
#![tactic(auto)]

mod command;
mod keyword;
mod line;
mod printing;
mod reader;
mod reading;
mod script;
mod word;

pub use command::Command;
pub use printing::print;
pub use reading::read;
pub use script::{Script, ScriptStop, Scripts};

#[cfg(test)]
mod tests;
