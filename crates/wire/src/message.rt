// Messages, as values.
ghost use Rattle.std.specs.Prelude.{◌≡◌};
ghost use Rattle.wire.specs.Laws.{DigestIsKept};
ghost use Rattle.wire.specs.Messages.{number_of_kind, kind_named, kind_of_number, digest_at, digest_bytes};

use crate::reader::digest_of;
use crate::refusal::Refusal;
use crate::writer::digest_bytes;
use hash::HashBytes;

// The bytes of a request and of a record.
pub const REQUEST_LEN: usize = 16;

pub const RECORD_LEN: usize = 48;

pub(crate) type RecordBytes = [u8; RECORD_LEN];

// A client's request: its number, from 1, tells a new request from a repeated one.
#[derive(Clone, Copy, PartialEq, Eq, Debug)]
pub struct Request {
    pub client: u16,
    pub number: u32,
    pub command: [u8; 10],
}

// A replica vouches for the first `length` requests of a view's log.
#[derive(Clone, Copy, PartialEq, Eq, Debug)]
pub struct Vouch {
    pub view: u32,
    pub length: u32,
}

// A 32-byte digest as four numbers, the first from the first eight bytes.
#[derive(Clone, Copy, PartialEq, Eq, Debug)]
pub struct Digest {
    pub first: u64,
    pub second: u64,
    pub third: u64,
    pub fourth: u64,
}

// The digest of the book after a position.
#[derive(Clone, Copy, PartialEq, Eq, Debug)]
pub struct Checkpoint {
    pub position: u32,
    pub digest: Digest,
}

// Names the VIEW-CHANGE that a replica made with a count.
#[derive(Clone, Copy, PartialEq, Eq, Debug)]
pub struct Pair {
    pub replica: u8,
    pub count: u32,
}

// The kinds of message, by their number on the wire.
#[derive(Clone, Copy, PartialEq, Eq, Debug)]
pub enum Kind {
    Prepare = 1,
    Commit = 2,
    Checkpoint = 3,
    ViewChange = 4,
    NewView = 5,
}

#[derive(Clone, Copy, PartialEq, Eq, Debug)]
pub enum Body {
    Prepare { view: u32, request: Request },
    Commit { vouch: Vouch },
    Checkpoint { checkpoint: Checkpoint },
    ViewChange { view: u32, vouch: Vouch },
    // As many pairs as a quorum has; the rest are zero. They stand in place, since nothing is allocated here.
    NewView { view: u32, pairs: [Pair; 4] },
}

// What a replica's device made with a count.
#[derive(Clone, Copy, PartialEq, Eq, Debug)]
pub struct Message {
    pub sender: u8,
    pub count: u32,
    pub body: Body,
}

impl From<&HashBytes> for Digest {
    ghost from_gives = { λ bytes digest. digest ≡ digest_at bytes.now 0 };

    fn from(bytes: &HashBytes) -> Digest {
        digest_of(bytes)
    }
}

impl From<&Digest> for HashBytes {
    ghost from_gives = { λ digest bytes. bytes ≡ digest_bytes digest.now };

    fn from(digest: &Digest) -> HashBytes
        ensures value { result ≡ digest_bytes digest.now }
        ensures digest_is_kept { DigestIsKept }
    {
        digest_bytes(digest)
    }
}

impl Kind {
    // The byte on the wire.
    pub fn number(self) -> u8
        ensures { result ≡ number_of_kind self }
    {
        self as u8
    }
}

// A number that no kind has is a bad first byte.
impl TryFrom<u8> for Kind {
    type Error = Refusal;

    ghost try_from_gives = { λ number kind. kind ≡ kind_of_number number };

    fn try_from(number: u8) -> Result<Kind, Refusal> {
        match number {
            1 => Ok(Kind::Prepare),
            2 => Ok(Kind::Commit),
            3 => Ok(Kind::Checkpoint),
            4 => Ok(Kind::ViewChange),
            5 => Ok(Kind::NewView),
            _ => Err(Refusal::BadForm { byte: 0 }),
        }
    }
}

impl Body {
    pub fn kind(&self) -> Kind
        ensures { result ≡ kind_named self.now }
    {
        match self {
            Body::Prepare { .. } => Kind::Prepare,
            Body::Commit { .. } => Kind::Commit,
            Body::Checkpoint { .. } => Kind::Checkpoint,
            Body::ViewChange { .. } => Kind::ViewChange,
            Body::NewView { .. } => Kind::NewView,
        }
    }
}
