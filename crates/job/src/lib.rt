// Job scripts: what a line says, and the answer to it.
#![tactic(auto)]

pub mod ending;
pub mod error;
pub mod evaluate;
pub mod keyword;
pub mod number;
pub mod quoted;
pub mod reader;
pub mod reply;
pub mod report;
pub mod setting;
pub mod statement;
#[cfg(test)]
mod tests;
pub mod unreadable;
pub mod words;
