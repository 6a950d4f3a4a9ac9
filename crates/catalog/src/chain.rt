// Two libraries, one behind the other.
use libraries::Library;

#[derive(Drop)]
pub struct Chain<A: Library, B: Library> {
    pub(crate) first: A,
    pub(crate) second: B,
}
