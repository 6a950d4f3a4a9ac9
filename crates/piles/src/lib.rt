// Lists of requests to any pile, with what holds of every list.
#![tactic(auto)]

pub mod alike;
pub mod request;
pub mod requests;

pub use alike::ask_both;
pub use request::Request;
pub use requests::make_requests;
