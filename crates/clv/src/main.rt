//! The front door: the words of the command line, the files of the system and standard output are
//! handed to the top call, and its status is the program's.
#![tactic(auto)]

use clv_engine::clv_top;
use clv_io::{HostFiles, HostSink};
use std::alloc::{AllocError, Global};
use std::process::ExitCode;
use std::rt::Env;
use std::{env, io};

// The words after the program's name.
fn words_of<R: Env + AllocGlobal>(rt: &R) -> io::Result<Vec<String>> {
    let mut words = Vec::new(rt.alloc());
    for word in env::args(rt)?.skip(1) {
        words.push(word)?;
    }
    Ok(words)
}

fn main(rt: HostRuntime) -> ExitCode {
    // A word that is no text makes the list of words empty, which is no command.
    let words = words_of(&rt).unwrap_or(Vec::new(rt.alloc()));
    let mut files = HostFiles::new(rt);
    let mut out = HostSink::new(rt);
    let status = clv_top(rt.alloc(), &words, &mut files, &mut out);
    ExitCode::from(status)
}
