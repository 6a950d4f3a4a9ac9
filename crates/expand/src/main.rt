// EXPAND: reads a site file from standard input and prints its listing.
#![tactic(auto)]

use listing::{SITE_BYTES, listing};
use std::io;
use std::io::{Read, Write};

fn main(rt: HostRuntime) -> io::Result<()> {
    // One byte past the limit shows that a file is too large.
    // `as`, since a usize has no `From` to u64.
    let mut site = Vec::new(rt.alloc());
    rt.stdin()
        .take(SITE_BYTES as u64 + 1)
        .read_to_end(&mut site)?;
    rt.stdout()
        .write_all(listing(rt.alloc(), site.as_slice())?.as_slice())
}
