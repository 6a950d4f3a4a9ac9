// A reply as it is printed.
ghost use Rattle.std.specs.Prelude.{◌≡◌, IfOk};
ghost use Rattle.piles.specs.Requests.{bytes_of};
ghost use Rattle.polling.specs.Show.{line_shown, replies_shown, reply_shown};

use lines::front;
use listing::FaultParts;
use piles::Request;
use sources::{Answer, Told};
use std::alloc::{AllocError, Global};

// The printed lines of all the requests, one after the other.
pub fn replies(heap: Global, requests: &[Request]) -> Result<Vec<u8>, AllocError>
    ensures { IfOk result (λ v. v.items ≡ replies_shown requests.now) }
{
    let mut out = Vec::new(heap);
    for request in requests {
        out.extend_from_slice(reply_line(heap, request)?.as_slice())?;
    }
    Ok(out)
}

// One printed line for a request: a line, held over, an ending, a refusal, or that it is not made yet.
pub fn reply_line(heap: Global, request: &Request) -> Result<Vec<u8>, AllocError>
    ensures { IfOk result (λ v. v.items ≡ reply_shown request.now.reply (bytes_of request.now)) }
{
    let text = match request.reply {
        None => format!(in heap; "pending\n"),
        Some(Err(refusal)) => format!(in heap; "refused {}\n", u16::from(refusal)),
        Some(Ok(Answer { spent, told })) => match told {
            Told::Line(length) => return line_line(heap, spent, length, request.buffer.as_slice()),
            Told::Held => format!(in heap; "held {spent}\n"),
            Told::Ended(Ok(())) => format!(in heap; "end {spent}\n"),
            Told::Ended(Err(fault)) => {
                format!(in heap; "fault {spent} {}\n", FaultParts::from(fault))
            }
        },
    }?;
    Ok(text.into_bytes())
}

// A line that was handed out: the steps, its length and its bytes.
fn line_line(heap: Global, spent: u32, length: usize, buffer: &[u8]) -> Result<Vec<u8>, AllocError>
    ensures { IfOk result (λ v. v.items ≡ line_shown spent length buffer.now) }
{
    let mut out = format!(in heap; "line {spent} {length} ")?.into_bytes();
    out.extend_from_slice(front(buffer, length))?;
    out.push(lines::LINE_END)?;
    Ok(out)
}
