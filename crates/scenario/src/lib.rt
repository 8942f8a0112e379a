// The scenario language: what a line says, and what a command answers. Nothing is done, read or written here.
#![tactic(auto)]

pub mod commands;
pub mod replies;
pub mod verbs;
