// One request to the top of a pile, and its reply once it is made.
use sources::Reply;

#[derive(Drop)]
pub struct Request {
    pub buffer: Vec<u8>,
    pub grant: u32,
    pub reply: Option<Reply>,
}
