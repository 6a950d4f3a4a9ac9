// Piles of a few fixed shapes over a text, any list of requests to one, and how replies are printed.
#![tactic(auto)]

pub mod asking;
pub mod shape;
pub mod shapes;
pub mod show;

pub use asking::requests_for;
pub use shape::{Shape, UnknownShape};
pub use shapes::poll_pile;
pub use show::{replies, reply_line};

#[cfg(test)]
mod tests {
    use super::*;
    use piles::Request;
    use std::test::Fail;

    // All replies at once are the printed lines, one after the other.
    #[test]
    fn all_at_once(rt: HostRuntime) -> Result<(), Fail> {
        let mut requests = Vec::new(rt.alloc());
        for grant in [0u32, 1, 1] {
            requests.push(Request {
                buffer: vec![in rt.alloc(); b'.'; 80]?,
                grant,
                reply: None,
            })?;
        }
        poll_pile(Shape::Bare, b"A\n".as_slice(), requests.as_mut_slice());
        let all = replies(rt.alloc(), requests.as_slice())?;
        assert!(rt; all.as_slice() == b"held 0\nline 1 1 A\nend 1\n".as_slice());
        Ok(())
    }
}
