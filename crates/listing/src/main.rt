// The box's small program: prints the listing of each file whose path it is given, `too long`, or its refusal.
#![tactic(auto)]

mod printed;

ghost use Rattle.std.specs.Prelude.{◌≤◌, length};
ghost use Rattle.listing.specs.Output.{lent_path};
ghost use Rattle.listing.specs.Input.{Within};

use std::env::FillError;
use std::fs;
use std::fs::File;
use std::io::{Error, Read, Write};
use std::rt::Env;

// What the system says where a path is longer than any, or no text.
const TOO_LONG: i32 = 36;

const NO_TEXT: i32 = 84;

// Reads until nothing comes, the space is full or a read fails: how many bytes of the file were read; or why a read failed, however many came before it.
fn fill(file: &mut File, space: &mut [u8]) -> Result<usize, Error>
    ensures { Within result space.new }
{
    let mut at = 0;
    // The index moves by what a read took, so a `for` is no plainer.
    while at < space.len() {
        let k = file.read(&mut space[at..])?;
        if k == 0 {
            return Ok(at);
        }
        at += k;
    }
    Ok(at)
}

// The words of an error without its number.
fn words(said: &str) -> &str {
    match said.split_once(" (os error ") {
        Some((before, _)) => before,
        None => said,
    }
}

// A line to standard error: what failed, a colon and the system's words.
fn fail(rt: &HostRuntime, what: &[u8], error: Error) {
    let mut out = rt.stderr();
    let _ = out.write_all(what);
    match error.to_string(rt.alloc()) {
        Ok(said) => {
            let shown = words(said.as_str());
            let _ = writeln!(out, ": {shown}");
        }
        Err(_) => {
            let _ = writeln!(out, ": {error}");
        }
    }
}

// Says why a path was not listed.
fn complain(rt: &HostRuntime, path: &[u8], error: Error)
    requires { length path.now ≤ lent_path }
{
    let mut name = [0u8; 12288];
    let n = printed::escaped(&path[0..], &mut name);
    fail(rt, &name[..n], error);
}

// Did standard output take all of it?
fn said(rt: &HostRuntime, text: &[u8]) -> bool {
    match rt.stdout().write_all(text) {
        Ok(()) => true,
        Err(error) => {
            fail(rt, b"standard output", error);
            false
        }
    }
}

// What is printed of these bytes, after the line of the path where there are several.
fn show(rt: &HostRuntime, file: &[u8], path: &[u8], several: bool) -> bool
    requires { length path.now ≤ lent_path }
{
    if several {
        let mut head = [0u8; 12290];
        let h = printed::heading(&path[0..], &mut head);
        if !said(rt, &head[..h]) {
            return false;
        }
    }
    let mut text = [0u8; 262144];
    let n = printed::whole(&file[0..], &mut text);
    said(rt, &text[..n])
}

fn opened(rt: &HostRuntime, path: &[u8]) -> Result<File, Error> {
    match str::from_utf8(path) {
        Ok(name) => fs::open(rt, name),
        Err(_) => Err(Error::from_raw_os_error(NO_TEXT)),
    }
}

// One byte more than is listed, so that a longer file is told from one that just fits. False where standard output took not all.
fn list(rt: &HostRuntime, path: &[u8], several: bool) -> bool
    requires { length path.now ≤ lent_path }
{
    match opened(rt, path) {
        Err(error) => {
            complain(rt, &path[0..], error);
            true
        }
        Ok(mut file) => {
            let mut space = [0u8; 65537];
            match fill(&mut file, &mut space) {
                Err(error) => {
                    complain(rt, &path[0..], error);
                    true
                }
                Ok(n) => show(rt, &space[..n], &path[0..], several),
            }
        }
    }
}

fn list_argument(rt: &HostRuntime, i: usize, several: bool) -> bool {
    let mut path = [0u8; 4096];
    match rt.arg(i, &mut path) {
        Ok(n) => list(rt, &path[..n], several),
        Err(_) => {
            fail(rt, b"a path", Error::from_raw_os_error(TOO_LONG));
            true
        }
    }
}

// Is there an argument of this number? No room is lent for it.
fn is_given(rt: &HostRuntime, i: usize) -> bool {
    match rt.arg(i, &mut []) {
        Err(FillError::NotPresent) => false,
        _ => true,
    }
}

fn main(rt: HostRuntime) {
    if !is_given(&rt, 1) {
        let _ = rt.eprintln("usage: listing PATH..");
        return;
    }
    let several = is_given(&rt, 2);
    for i in 1..usize::MAX {
        if !is_given(&rt, i) {
            return;
        }
        if !list_argument(&rt, i, several) {
            return;
        }
    }
}
