// POLL: puts layers over a text from standard input, makes a list of requests, and prints each reply.
#![tactic(auto)]

use anyhow::bail;
use listing::SITE_BYTES;
use polling::{Shape, poll_pile, reply_line, requests_for};
use std::env;
use std::io::{Read, Write};

const USAGE: &str = "use: poll LAYERS REQUESTS, with a text on standard input";

const LAYERS: &str = "LAYERS: -, E, EE, EEE or EEEE, the bottom layer first";

const REQUESTS: &str =
    "REQUESTS: grant or grant/bufferlength, parted by commas; a grant is a number up to 4294967295";

// Tells what the words should be.
fn explain(rt: &HostRuntime) -> anyhow::Result<()> {
    rt.eprintln(USAGE)?;
    rt.eprintln(LAYERS)?;
    rt.eprintln(REQUESTS)?;
    bail!("words not understood")
}

fn main(rt: HostRuntime) -> anyhow::Result<()> {
    let mut words = env::args(&rt)?.skip(1);
    let (Some(layers), Some(list)) = (words.next(), words.next()) else {
        return explain(&rt);
    };
    // The shape first: where it has no name, no buffer is made.
    let Ok(shape) = layers.as_str().parse::<Shape>() else {
        return explain(&rt);
    };
    let Ok(mut requests) = requests_for(rt.alloc(), list.as_str()) else {
        return explain(&rt);
    };
    // `as`, since a usize has no `From` to u64.
    let mut site = Vec::new(rt.alloc());
    rt.stdin().take(SITE_BYTES as u64).read_to_end(&mut site)?;
    poll_pile(shape, site.as_slice(), requests.as_mut_slice());
    // A reply at a time, so that they need no memory for all of them, and those before a failure are printed.
    for request in requests.iter() {
        rt.stdout()
            .write_all(reply_line(rt.alloc(), request)?.as_slice())?;
    }
    Ok(())
}
