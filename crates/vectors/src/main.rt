// VECTORS: runs cases from standard input and prints what each gives.
//
// A case is a line `= NAME`, a line `LAYERS REQUESTS` as POLL takes them, or `check` for a library text, and the text: a
// line `|BYTES` for each of its lines, or `+BYTES` for one without its byte 10. In the bytes \HH is the byte of that
// hexadecimal number. A line `*COUNT|BYTES` stands for as many such lines.
#![tactic(auto)]

ghost use Rattle.std.specs.Prelude.{◌<◌};

use anyhow::Context;
use libraries::{LibraryFault, check_text};
use polling::{Shape, poll_pile, reply_line, requests_for};
use std::alloc::{AllocError, Global};
use std::io::{Read, Write};

const MOST_BYTES: u64 = 1_000_000;

// The value of a hexadecimal digit; other bytes count as 0.
// `char::to_digit` takes small letters too, which count as 0 here.
fn hex(byte: u8) -> u8
    ensures { result < 16 }
{
    match byte {
        b'0'..=b'9' => byte - b'0',
        b'A'..=b'F' => byte - b'A' + 10,
        _ => 0,
    }
}

// Appends bytes as they are written in a case; a backslash with fewer than two bytes after it stands for none.
fn append(text: &mut Vec<u8>, written: &str) -> Result<(), AllocError> {
    let mut bytes = written.bytes();
    while let Some(byte) = bytes.next() {
        if byte != b'\\' {
            text.push(byte)?;
        } else if let (Some(high), Some(low)) = (bytes.next(), bytes.next()) {
            text.push(hex(high) * 16 + hex(low))?;
        }
    }
    Ok(())
}

// Appends a line of the text so many times.
fn append_lines(text: &mut Vec<u8>, count: u16, written: &str) -> Result<(), AllocError> {
    for _ in 0..count {
        append(text, written)?;
        text.push(lines::LINE_END)?;
    }
    Ok(())
}

// A case as far as it is read.
#[derive(Drop)]
struct Case {
    asked: String,
    text: Vec<u8>,
}

// Runs a case that is whole, and makes room for the next.
fn finish(rt: &HostRuntime, case: &mut Case) -> anyhow::Result<()> {
    if !case.asked.is_empty() {
        run_case(rt, case.asked.as_str(), case.text.as_slice())?;
    }
    case.asked.clear();
    case.text.clear();
    Ok(())
}

// Checks a library text and prints what is wrong first.
fn run_check(rt: &HostRuntime, text: &[u8]) -> anyhow::Result<()> {
    match check_text(text) {
        Ok(()) => rt.println("lawful")?,
        Err(LibraryFault { cause, line }) => println!(rt; "fault {} {line}", u16::from(cause))?,
    }
    Ok(())
}

// Makes the requests of a case and prints the replies.
fn run_case(rt: &HostRuntime, asked: &str, text: &[u8]) -> anyhow::Result<()> {
    if asked == "check" {
        return run_check(rt, text);
    }
    let (layers, list) = asked
        .split_once(' ')
        .context("a case has no line of layers and requests")?;
    let shape = layers
        .parse::<Shape>()
        .ok()
        .context("a case names no shape")?;
    let mut requests = requests_for(rt.alloc(), list)?;
    poll_pile(shape, text, requests.as_mut_slice());
    // A reply at a time, as POLL prints them.
    for request in requests.iter() {
        rt.stdout()
            .write_all(reply_line(rt.alloc(), request)?.as_slice())?;
    }
    Ok(())
}

// A line of a case after its name: of the text, or of what is asked.
fn add_line(heap: Global, case: &mut Case, line: &str) -> anyhow::Result<()> {
    if let Some(bytes) = line.strip_prefix('|') {
        append_lines(&mut case.text, 1, bytes)?;
    } else if let Some(bytes) = line.strip_prefix('+') {
        append(&mut case.text, bytes)?;
    } else if let Some(repeated) = line.strip_prefix('*') {
        let (count, bytes) = repeated
            .split_once('|')
            .context("a repeated line has no bytes")?;
        append_lines(&mut case.text, count.parse::<u16>()?, bytes)?;
    } else {
        case.asked = String::from_str(heap, line)?;
    }
    Ok(())
}

fn main(rt: HostRuntime) -> anyhow::Result<()> {
    let mut input = String::new(rt.alloc());
    rt.stdin().take(MOST_BYTES).read_to_string(&mut input)?;
    let mut case = Case {
        asked: String::new(rt.alloc()),
        text: Vec::new(rt.alloc()),
    };
    for line in input.as_str().lines() {
        if let Some(name) = line.strip_prefix("= ") {
            finish(&rt, &mut case)?;
            rt.println(name)?;
        } else {
            add_line(rt.alloc(), &mut case, line)?;
        }
    }
    finish(&rt, &mut case)
}
