//! The daemon's program: replays a record of a desktop, or makes one from a number.
#![tactic(auto)]

#[cfg(test)]
mod clipboard_tests;
#[cfg(test)]
mod frame_tests;
#[cfg(test)]
mod guest_tests;
#[cfg(test)]
mod isolation_tests;
#[cfg(test)]
mod made_tests;
mod making;
#[cfg(test)]
mod message_tests;
#[cfg(test)]
mod output_tests;
mod run;
mod status;
mod streams;
#[cfg(test)]
mod tests;
#[cfg(test)]
mod user_tests;
mod words;
#[cfg(test)]
mod work_tests;

use crate::status::Status;
use crate::streams::{after_args, run_streams, tell, words_behind};
use std::process::ExitCode;
use std::{env, io};

// Runs over the standard streams, for the words that the program was started with.
fn run_program(rt: &HostRuntime) -> Status {
    let args = match env::args(rt) {
        Ok(args) => args,
        Err(error) => return after_args(&error),
    };
    match words_behind(rt.alloc(), args) {
        Ok(words) => run_streams(rt.alloc(), &words, rt.reader(), io::writer(rt)),
        Err(_) => Status::NoMemory,
    }
}

fn main(rt: HostRuntime) -> ExitCode {
    let status = run_program(&rt);
    // The number stands whatever becomes of the line.
    let _ = tell(&mut rt.stderr(), &status);
    ExitCode::from(status.number())
}
