//! The program: it opens the disk, the input and the output, and hands them with its words to the top call.
#![tactic(auto)]

use disk_model::{FileDisk, MemDisk};
use qsr_io::{StdSink, StdSource};
use qsr_top::{End, qsr_run, say_end};
use qsr_value::Memory;
use std::fs::{File, OpenOptions};
use std::io::ErrorKind;
use std::path::Path;
use std::process::ExitCode;
use std::rt::Env;
use std::{env, io};

/// The words behind the program's name. Words that aren't UTF-8 are wrong words, whichever they are.
fn words(rt: &(impl Env + AllocGlobal)) -> Result<Vec<String>, End> {
    let args = env::args(rt).map_err(|error| match error.kind() {
        ErrorKind::OutOfMemory => End::NoMemory,
        _ => End::Usage,
    })?;
    args.skip(1).collect(rt.alloc()).map_err(|_| End::NoMemory)
}

/// The folder that FILE stands in.
fn folder_of(file: &str) -> &str {
    match Path::new(file).parent() {
        Some(folder) if !folder.as_str().is_empty() => folder.as_str(),
        _ => ".",
    }
}

/// Opens FILE, which is there unless it is to be made.
fn open_file(rt: &HostRuntime, file: &str, make: bool) -> io::Result<File> {
    OpenOptions::new()
        .read(true)
        .write(true)
        .create(make)
        .open(rt, file)
}

/// Makes FILE, and syncs its folder, so that a crash after it leaves FILE's entry there.
fn make_file(rt: &HostRuntime, file: &str) -> io::Result<File> {
    let made = open_file(rt, file, true)?;
    File::open(rt, folder_of(file))?.sync_all()?;
    Ok(made)
}

/// Opens FILE, and makes it where it isn't there.
fn open_disk(rt: &HostRuntime, file: &str) -> io::Result<FileDisk> {
    let file = match open_file(rt, file, false) {
        Err(error) if error.kind() == ErrorKind::NotFound => make_file(rt, file)?,
        opened => opened?,
    };
    Ok(FileDisk::at(file))
}

fn main(rt: HostRuntime) -> ExitCode {
    let alloc = rt.alloc();
    let mut input = StdSource::new(rt.stdin());
    let mut out = StdSink::new(rt.stdout());
    let words = match words(&rt) {
        Ok(words) => words,
        Err(end) => return ExitCode::from(say_end(end, &mut out)),
    };
    // FILE is opened, and made where it isn't there, before the other words are read.
    let status = match words.first() {
        Some(file) => match open_disk(&rt, file.as_str()) {
            Ok(mut disk) => qsr_run(alloc, &words, &mut disk, &mut input, &mut out),
            Err(_) => say_end(End::DiskFault, &mut out),
        },
        None => match MemDisk::new(alloc, 0, 0) {
            Ok(mut disk) => qsr_run(alloc, &words, &mut disk, &mut input, &mut out),
            Err(Memory) => say_end(End::NoMemory, &mut out),
        },
    };
    ExitCode::from(status)
}
