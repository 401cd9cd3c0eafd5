//! Links records of two files that share no key, after Fellegi and Sunter (1969): reads CSV files and a settings file of
//! the host, and prints or writes what a command's words ask for.
#![tactic(auto)]

use host_outside::{HostFiles, HostStream, keep_memory, words_after_name};
use link_shell::linkage;
use std::env;
use std::process::ExitCode;

/// The exit status for want of memory.
const NO_MEMORY: u8 = 8;

fn main(rt: HostRuntime) -> ExitCode {
    let alloc = rt.alloc();
    keep_memory(alloc);
    let Ok(words) = words_after_name(alloc, env::args(&rt)) else {
        return ExitCode::from(NO_MEMORY);
    };
    let mut store = HostFiles::new(alloc, &rt);
    let mut out = HostStream::new(rt.stdout());
    let mut err = HostStream::new(rt.stderr());
    ExitCode::from(linkage(alloc, &words, &mut store, &mut out, &mut err))
}
