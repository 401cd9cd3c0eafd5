//! Runs commands over files in memory as the steps of `script.csv` say, and prints how each ends in a row of CSV (RFC 4180).
//!
//! A step is a row: `clear` forgets all names; `hold,NAME,FILE,MOST` has a name hold the bytes of a file, or so many of its front where a number stands there;
//! `none,NAME` has a name hold nothing; `try,STORE,APPLIED,OUT,ERR,WORD..` runs a command of which those calls fail, counted from 1 and
//! 0 for none, and prints its status, what it printed, what it told, and each name that holds other bytes than before with these;
//! `pool,LIMIT,SETTINGS,A,B` prints whether the texts of two files fit into a pool of so many bytes: the bytes wanted, or 0.
#![tactic(auto)]

mod files;
mod trial;

use csv::ByteRecord;
use csv_rows::read_decimal;
use file_reader::{Records, field_of};
use files::Files;
use link_base::{Fault, NoMemory, push_number};
use link_core::prepare;
use link_limits::MOST_POOL_LIMIT;
use link_outside::Failure;
use settings::read_settings;
use std::alloc::{AllocError, AllocFailed, Global};
use std::io::Write;
use std::process::ExitCode;
use std::rt::Files as HostFiles;
use std::{fs, io};
use trial::{Failures, push_ending};

/// The script.
const SCRIPT: &str = "script.csv";

/// The greatest number of a step.
const MOST_NUMBER: u32 = 100_000_000;

/// Why no more steps are taken.
#[derive(Clone, Copy)]
enum Stop {
    NoMemory,
    NoFile,
    NoStep,
    NoOutput,
}

impl From<NoMemory> for Stop {
    fn from(_: NoMemory) -> Stop {
        Stop::NoMemory
    }
}

impl From<AllocError> for Stop {
    fn from(_: AllocError) -> Stop {
        Stop::NoMemory
    }
}

impl<T: Drop> From<AllocFailed<T>> for Stop {
    fn from(_: AllocFailed<T>) -> Stop {
        Stop::NoMemory
    }
}

// The text in a field of a step.
fn text_of(step: &ByteRecord, at: usize) -> Result<&str, Stop> {
    str::from_utf8(field_of(step, at)).map_err(|_| Stop::NoStep)
}

// The number in a field of a step.
fn number_of(step: &ByteRecord, at: usize) -> Result<u32, Stop> {
    read_decimal(field_of(step, at), MOST_NUMBER).ok_or(Stop::NoStep)
}

// The words from a field of a step on.
fn words_of(alloc: Global, step: &ByteRecord, from: usize) -> Result<Vec<String>, Stop> {
    let mut words = Vec::new(alloc);
    for at in from..step.len() {
        words.push(String::from_str(alloc, text_of(step, at)?)?)?;
    }
    Ok(words)
}

// What a file holds.
fn read<R: HostFiles + AllocGlobal>(rt: &R, name: &str) -> Result<Vec<u8>, Stop> {
    fs::read(rt, name).map_err(|_| Stop::NoFile)
}

// Prints how the command of a step ends.
fn push_try(
    alloc: Global,
    row: &mut Vec<u8>,
    files: &mut Files,
    step: &ByteRecord,
) -> Result<(), Stop> {
    let fails = Failures {
        store: Failure {
            call: number_of(step, 1)?,
            applied: number_of(step, 2)? == 1,
        },
        out: number_of(step, 3)?,
        err: number_of(step, 4)?,
    };
    let words = words_of(alloc, step, 5)?;
    push_ending(alloc, row, files, &words, fails)
}

// The bytes of a pool that the texts of two files want, where one of so many bytes is too small; else 0.
fn wanted(alloc: Global, limit: u32, settings: &[u8], a: &[u8], b: &[u8]) -> Result<u64, Fault> {
    let plan = read_settings(alloc, settings)?;
    match prepare(alloc, &plan, a, b, u64::from(limit).min(MOST_POOL_LIMIT)) {
        Err(Fault::PoolFull { used, .. }) => Ok(used),
        Err(fault) => Err(fault),
        Ok(_) => Ok(0),
    }
}

// Appends the bytes of a pool that the files of a step want.
fn push_pool<R: HostFiles + AllocGlobal>(
    rt: &R,
    row: &mut Vec<u8>,
    step: &ByteRecord,
) -> Result<(), Stop> {
    let settings = read(rt, text_of(step, 2)?)?;
    let a = read(rt, text_of(step, 3)?)?;
    let b = read(rt, text_of(step, 4)?)?;
    match wanted(rt.alloc(), number_of(step, 1)?, &settings, &a, &b) {
        Ok(bytes) => Ok(push_number(rt.alloc(), row, bytes)?),
        Err(_) => Err(Stop::NoStep),
    }
}

// Has a name hold what a step says.
fn hold<R: HostFiles + AllocGlobal>(
    rt: &R,
    files: &mut Files,
    step: &ByteRecord,
) -> Result<(), Stop> {
    let mut bytes = read(rt, text_of(step, 2)?)?;
    if let Some(most) = read_decimal(field_of(step, 3), MOST_NUMBER) {
        bytes.truncate(most as usize);
    }
    files.set(rt.alloc(), text_of(step, 1)?, Some(bytes))
}

// Does what a step says, and appends what it asks for.
fn take<R: HostFiles + AllocGlobal>(
    rt: &R,
    row: &mut Vec<u8>,
    files: &mut Files,
    step: &ByteRecord,
) -> Result<(), Stop> {
    match text_of(step, 0)? {
        "clear" => files.clear(),
        "none" => files.set(rt.alloc(), text_of(step, 1)?, None)?,
        "hold" => hold(rt, files, step)?,
        "try" => push_try(rt.alloc(), row, files, step)?,
        "pool" => push_pool(rt, row, step)?,
        _ => return Err(Stop::NoStep),
    }
    Ok(())
}

// Takes a step, and prints the row that it asks for, if any.
fn take_step<R: Print + HostFiles + AllocGlobal>(
    rt: &R,
    files: &mut Files,
    step: &ByteRecord,
) -> Result<(), Stop> {
    let mut row = Vec::new(rt.alloc());
    take(rt, &mut row, files, step)?;
    if !row.is_empty() {
        row.push(b'\n')?;
        io::writer(rt).write_all(&row).map_err(|_| Stop::NoOutput)?;
    }
    Ok(())
}

// Takes the steps of the script.
fn run<R: Print + HostFiles + AllocGlobal>(rt: &R) -> Result<(), Stop> {
    let script = read(rt, SCRIPT)?;
    let mut files = Files::new(rt.alloc());
    let mut steps = Records::new(rt.alloc(), &script, b',');
    let mut step = ByteRecord::new(rt.alloc());
    for _ in 0..u64::MAX {
        if !steps.next(&mut step)? {
            break;
        }
        take_step(rt, &mut files, &step)?;
    }
    Ok(())
}

fn main(rt: HostRuntime) -> ExitCode {
    match run(&rt) {
        Ok(()) => ExitCode::SUCCESS,
        Err(_) => ExitCode::FAILURE,
    }
}
