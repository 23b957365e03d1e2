// What crosses between hosts: requests, records and refusals, exact to the byte.
#![tactic(auto)]

mod group;
mod message;
mod reader;
mod refusal;
mod writer;

pub use group::{is_member, primary, quorum};
pub use message::{
    Body, Checkpoint, Digest, Kind, Message, Pair, RECORD_LEN, REQUEST_LEN, Request, Vouch,
};
pub use reader::{read, read_request};
pub use refusal::{Buffer, Layer, Refusal};
pub use writer::{write, write_request};
