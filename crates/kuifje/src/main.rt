//! The program: real files and the standard streams under the proved call.
#![tactic(auto)]

use kf_io::{HostFiles, HostSink};
use kf_top::run;
use std::env;
use std::io::ErrorKind;
use std::process::ExitCode;

/// The status where memory is refused before there is a call to make.
const WANT_OF_MEMORY: u8 = 12;

/// The status where an argument isn't UTF-8.
const USAGE: u8 = 2;

fn main(rt: HostRuntime) -> ExitCode {
    let words: Vec<String> = match env::args(&rt) {
        Ok(words) => match words.collect(rt.alloc()) {
            Ok(words) => words,
            Err(_) => return ExitCode::from(WANT_OF_MEMORY),
        },
        Err(error) if error.kind() == ErrorKind::OutOfMemory => {
            return ExitCode::from(WANT_OF_MEMORY);
        }
        Err(_) => return ExitCode::from(USAGE),
    };
    let mut files = HostFiles::new(&rt);
    let mut out = HostSink::new(rt.stdout());
    let mut err = HostSink::new(rt.stderr());
    ExitCode::from(run(rt.alloc(), &words, &mut files, &mut out, &mut err))
}
