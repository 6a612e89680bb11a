//! Runs the scripts of the gallery, and tells of each whether it prints what it should.
//!
//! A line of `gallery.txt` names a script and the words it is run with. `NAME.hy` is the script, and
//! `NAME.out` is what `run` should print of it, `NAME.COMMAND` what another command should. `hy.log` is the log that a run of
//! the script `recovered_tables` left, made by another program.
#![tactic(auto)]

use hy_disk::FileDisk;
use hy_outside::{MemSink, MemSource};
use hy_threads::OpenGate;
use std::alloc::AllocError;
use std::io::{Print, Write};
use std::rt::Files;
use std::sync::Wait;
use std::thread::Threads;
use std::{fs, io};

/// The file that names the scripts.
const LIST: &str = "gallery.txt";

/// How many bytes of a script the program is given at once.
const PIECE: usize = 64;

/// How many bytes a script may print.
const ROOM: usize = 65_536;

/// What a run came to: its status, and what it printed.
#[derive(Drop)]
struct Printed {
    status: u8,
    bytes: Vec<u8>,
}

/// Goes through the list, and tells at the end how many scripts print what they should.
fn main(rt: HostRuntime) -> io::Result<()> {
    let list = fs::read_to_string(&rt, LIST)?;
    let mut scripts = 0u32;
    let mut as_expected = 0u32;
    for line in list.as_str().lines() {
        let (name, words) = line.split_once(' ').unwrap_or((line, ""));
        scripts = scripts.saturating_add(1);
        let mut disk = FileDisk::new(&rt);
        if shows_what_is_expected(&rt, name, words, &mut disk)? {
            as_expected = as_expected.saturating_add(1);
        }
    }
    println!(rt; "{as_expected} of {scripts} as expected")
}

/// Runs a script beside a disk, and prints its name and whether it printed what is expected; else also what it printed.
fn shows_what_is_expected(
    rt: &(impl Files + Print + Threads + Wait + Sync + AllocGlobal),
    name: &str,
    words: &str,
    disk: &mut FileDisk<'_>,
) -> io::Result<bool> {
    let alloc = rt.alloc();
    let script = fs::read(rt, format!(in alloc; "{name}.hy")?)?;
    let ending = match words.split_whitespace().next() {
        None | Some("run") => "out",
        Some(command) => command,
    };
    let expected = fs::read(rt, format!(in alloc; "{name}.{ending}")?)?;
    let printed = printed_by(rt, words, script, disk)?;
    let status = printed.status;
    if printed.bytes.as_slice() != expected.as_slice() {
        println!(rt; "{name}: differs, status {status}")?;
        io::writer(rt).write_all(printed.bytes.as_slice())?;
        return Ok(false);
    }
    if status == 0 {
        println!(rt; "{name}: as expected")?;
    } else {
        println!(rt; "{name}: as expected, status {status}")?;
    }
    Ok(true)
}

/// Runs `hy` with these words on a script in memory, beside a disk.
fn printed_by(
    rt: &(impl Threads + Wait + Sync + AllocGlobal),
    words: &str,
    script: Vec<u8>,
    disk: &mut FileDisk<'_>,
) -> Result<Printed, AllocError> {
    let alloc = rt.alloc();
    let mut all = Vec::new(alloc);
    all.push(String::from_str(alloc, "hy")?)?;
    for word in words.split_whitespace() {
        all.push(String::from_str(alloc, word)?)?;
    }
    let mut source = MemSource::new(script, PIECE, Vec::new(alloc));
    let mut sink = MemSink::new(alloc, ROOM, Vec::new(alloc))?;
    let status = hy_top::run(rt, alloc, &all, &mut source, &mut sink, &OpenGate, disk).status;
    Ok(Printed {
        status,
        bytes: sink.bytes().to_vec(alloc)?,
    })
}
