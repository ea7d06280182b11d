// Runs the vectors of the file `vectors` through the proved leaves, and prints each with its answer. A vector is a letter for the question, two bytes for
// the length, the higher first, and the bytes. `second vectors` makes the file and what is to be printed.
#![tactic(auto)]

ghost use Rattle.std.specs.Io.{ReadsAtMost};

use endian::be2;
use std::fs::File;
use std::io::{Print, Read, Result};

// The levels that an item at depth 1 may take.
const LEVELS: u64 = 32;

fn say_hex(out: &impl Print, bytes: &[u8]) -> Result<()> {
    for byte in bytes {
        let byte = *byte;
        print!(out; "{byte:02x}")?;
    }
    Ok(())
}

fn say_yes_or_no(out: &impl Print, yes: bool) -> Result<()> {
    if yes {
        return println!(out; "yes");
    }
    println!(out; "no")
}

// How many bytes the item takes, or the refusal.
fn say_taken(out: &impl Print, bytes: &[u8]) -> Result<()> {
    let taken = cbor::skip(bytes, LEVELS);
    if taken == cbor::MALFORMED {
        return println!(out; "refused 6");
    }
    if taken == cbor::DEEP {
        return println!(out; "refused 7");
    }
    println!(out; "{taken}")
}

fn say_version(out: &impl Print, bytes: &[u8]) -> Result<()> {
    if versions::version_shape(bytes) {
        print!(out; "version, major 1: ")?;
        return say_yes_or_no(out, versions::major_one(bytes));
    }
    println!(out; "no version")
}

fn answer(out: &impl Print, question: u8, bytes: &[u8]) -> Result<()> {
    out.write_all(&[question, b' '])?;
    say_hex(out, bytes)?;
    print!(out; " ")?;
    match question {
        b's' => say_taken(out, bytes),
        b'u' => say_yes_or_no(out, utf8::utf8(bytes)),
        b'v' => say_version(out, bytes),
        _ => println!(out; "unknown question"),
    }
}

fn answer_all(out: &impl Print, vectors: &[u8]) -> Result<()> {
    let mut at = 0;
    while at < vectors.len() {
        if vectors.len() - at < 3 {
            return println!(out; "cut off");
        }
        let from = at + 3;
        let size = be2(vectors, at + 1) as usize;
        if vectors.len() - from < size {
            return println!(out; "cut off");
        }
        let end = from + size;
        answer(out, vectors[at], &vectors[from..end])?;
        at = end;
    }
    Ok(())
}

// Reads until the space is full or the input ends. listing's fill is the same loop; a crate that both programs ask for this alone is no plainer.
fn read_full(file: &mut impl Read, space: &mut [u8]) -> Result<usize>
    ensures { ReadsAtMost result space.new }
{
    let mut at = 0;
    // The index moves by what a read took, so a `for` is no plainer.
    while at < space.len() {
        let got = file.read(&mut space[at..])?;
        if got == 0 {
            return Ok(at);
        }
        at += got;
    }
    Ok(at)
}

fn main(rt: HostRuntime) -> Result<()> {
    let mut file = match File::open(&rt, "vectors") {
        Ok(file) => file,
        Err(error) => return eprintln!(rt; "vectors: {error}"),
    };
    let mut space = [0u8; 65536];
    let n = read_full(&mut file, &mut space)?;
    answer_all(&rt, &space[..n])
}
