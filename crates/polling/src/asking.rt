// Requests from a written list, as `1,0,5/200`.
ghost use Rattle.std.specs.Prelude.{◌≡◌, IfOk, None};
ghost use Rattle.polling.specs.Shapes.{Unmade};

use piles::Request;
use sources::line::WIDTH;
use std::alloc::Global;

// What a buffer holds before its request.
const UNUSED: u8 = b'.';

// The requests of a list parted by commas, each a grant or `grant/bufferlength`; none is made yet.
pub fn requests_for(heap: Global, list: &str) -> anyhow::Result<Vec<Request>>
    ensures { IfOk result (λ v. Unmade v.items) }
{
    list.split(',')
        .map(|words| request_for(heap, words))
        .try_collect(heap)
}

// A request for `grant` or `grant/bufferlength`; the buffer of a line where it names none.
fn request_for(heap: Global, words: &str) -> anyhow::Result<Request>
    ensures { IfOk result (λ q. q.reply ≡ None) }
{
    let (grant, size) = match words.split_once('/') {
        Some((grant, size)) => (grant, size.parse::<usize>()?),
        None => (words, WIDTH),
    };
    Ok(Request {
        buffer: vec![in heap; UNUSED; size]?,
        grant: grant.parse::<u32>()?,
        reply: None,
    })
}
