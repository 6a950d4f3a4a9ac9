// Every byte that EXPAND prints.
#![tactic(auto)]

ghost use Rattle.std.specs.Prelude.{◌≡◌, ◌^◌, ◌<◌, [], ◌∷◌, ◌++◌, IfOk, string_bytes, OnOk};
ghost use Rattle.sources.specs.Hearings.{text_of};
ghost use Rattle.piles.specs.Prices.{total};
ghost use Rattle.listing.specs.Listing.{ending_shown, expand_listing, fault_shown, listed};

pub mod parts;

use lines::LINE_END;
pub use parts::FaultParts;
use sources::source::MOST_STEPS;
use sources::{Answer, Ending, Source, TextSource, Told, ask};
use std::alloc::{AllocError, Global};

// The most bytes of a site file.
pub const SITE_BYTES: usize = 65_536;

// The bytes that EXPAND prints for a site file.
pub fn listing(heap: Global, site: &[u8]) -> Result<Vec<u8>, AllocError>
    ensures { IfOk result (λ v. v.items ≡ expand_listing site.now) }
{
    if site.len() > SITE_BYTES {
        return Ok(fault_line(heap, FaultParts::TOO_LARGE)?.into_bytes());
    }
    let mut source = TextSource::new(site);
    list(heap, &mut source)
}

// The lines of a source and its ending.
fn list<S: Source>(heap: Global, source: &mut S) -> Result<Vec<u8>, AllocError>
    requires { total (S.meaning (S.kept source.old)) < 2 ^ 64 }
    ensures { IfOk result (λ v. v.items ≡ listed (S.meaning (S.kept source.old))) }
{
    let mut out = Vec::new(heap);
    let mut lines: u64 = 0;
    let mut steps: u64 = 0;
    loop {
        let Answer { spent, told } = ask(source, MOST_STEPS).unwrap();
        steps += u64::from(spent);
        match told {
            Told::Line(line) => {
                out.extend_from_slice(line.text())?;
                out.push(LINE_END)?;
                lines += 1;
            }
            Told::Held => {}
            Told::Ended(ending) => {
                let last = ending_line(heap, ending, lines, steps)?;
                out.extend_from_slice(last.as_bytes())?;
                return Ok(out);
            }
        }
    }
}

// The line that tells the ending.
fn ending_line(heap: Global, ending: Ending, lines: u64, steps: u64) -> Result<String, AllocError>
    ensures { IfOk result (λ s. string_bytes s ≡ ending_shown ending lines steps) }
{
    match ending {
        Ok(()) => format!(in heap; "* END {lines} {steps}\n"),
        Err(fault) => fault_line(heap, FaultParts::from(fault)),
    }
}

// The line that tells a fault.
fn fault_line(heap: Global, parts: FaultParts) -> Result<String, AllocError>
    ensures { IfOk result (λ s. string_bytes s ≡ fault_shown parts) }
{
    format!(in heap; "* FAULT {parts}\n")
}

#[cfg(test)]
mod tests {
    use super::*;
    use std::test::Fail;

    // A file of just the largest size is read, and one byte more is fault 17.
    #[test]
    fn sizes(rt: HostRuntime) -> Result<(), Fail> {
        let mut site = vec![in rt.alloc(); lines::BLANK; SITE_BYTES]?;
        let read = listing(rt.alloc(), site.as_slice())?;
        assert!(rt; read.as_slice() == b"* FAULT 3 0 1 0 0\n".as_slice());
        site.push(lines::BLANK)?;
        let refused = listing(rt.alloc(), site.as_slice())?;
        assert!(rt; refused.as_slice() == b"* FAULT 17 0 0 0 0\n".as_slice());
        Ok(())
    }
}
