// Runs published examples of SHA-256 and HMAC-SHA-256, and says of each whether it comes out as published.
#![tactic(auto)]

use hash::{HashBytes, Hasher, hmac, sha256};
use hexadecimal::Hex;

const TWO_BLOCKS: &[u8] = b"abcdbcdecdefdefgefghfghighijhijkijkljklmklmnlmnomnopnopq";

const KEY_OF_25: &[u8] = &[
    0x01, 0x02, 0x03, 0x04, 0x05, 0x06, 0x07, 0x08, 0x09, 0x0a, 0x0b, 0x0c, 0x0d, 0x0e, 0x0f, 0x10,
    0x11, 0x12, 0x13, 0x14, 0x15, 0x16, 0x17, 0x18, 0x19,
];

const LONG_KEY: &[u8] = &[0xaa; 131];

struct HashExample {
    name: &'static str,
    message: &'static [u8],
    published: &'static str,
}

// Of some tags only the first bytes are published: `len` says how many.
struct MacExample {
    name: &'static str,
    key: &'static [u8],
    text: &'static [u8],
    len: usize,
    published: &'static str,
}

const MESSAGES: [HashExample; 3] = [
    HashExample {
        name: "empty message",
        message: b"",
        published: "e3b0c44298fc1c149afbf4c8996fb92427ae41e4649b934ca495991b7852b855",
    },
    HashExample {
        name: "abc",
        message: b"abc",
        published: "ba7816bf8f01cfea414140de5dae2223b00361a396177a9cb410ff61f20015ad",
    },
    HashExample {
        name: "two blocks",
        message: TWO_BLOCKS,
        published: "248d6a61d20638b8e5c026930c3e6039a33ce45964ff2167f6ecedd419db06c1",
    },
];

const SHORT_MESSAGES: [HashExample; 6] = [
    HashExample {
        name: "short message, 1 byte",
        message: &[0xd3],
        published: "28969cdfa74a12c82f3bad960b0b000aca2ac329deea5c2328ebc6f2ba9802c1",
    },
    HashExample {
        name: "short message, 2 bytes",
        message: &[0x11, 0xaf],
        published: "5ca7133fa735326081558ac312c620eeca9970d1e70a4b95533d956f072d1f98",
    },
    HashExample {
        name: "short message, 3 bytes",
        message: &[0xb4, 0x19, 0x0e],
        published: "dff2e73091f6c05e528896c4c831b9448653dc2ff043528f6769437bc7b975c2",
    },
    HashExample {
        name: "short message, 4 bytes",
        message: &[0x74, 0xba, 0x25, 0x21],
        published: "b16aa56be3880d18cd41e68384cf1ec8c17680c45a02b1575dc1518923ae8b0e",
    },
    HashExample {
        name: "short message, 5 bytes",
        message: &[0xc2, 0x99, 0x20, 0x96, 0x82],
        published: "f0887fe961c9cd3beab957e8222494abb969b1ce4c6557976df8b0f6d20e9166",
    },
    HashExample {
        name: "short message, 8 bytes",
        message: &[0x57, 0x38, 0xc9, 0x29, 0xc4, 0xf4, 0xcc, 0xb6],
        published: "963bb88f27f512777aab6c8b1a02c70ec0ad651d428f870036e1917120fb48bf",
    },
];

const MACS: [MacExample; 7] = [
    MacExample {
        name: "hmac 1",
        key: &[0x0b; 20],
        text: b"Hi There",
        len: 32,
        published: "b0344c61d8db38535ca8afceaf0bf12b881dc200c9833da726e9376c2e32cff7",
    },
    MacExample {
        name: "hmac 2, short key",
        key: b"Jefe",
        text: b"what do ya want for nothing?",
        len: 32,
        published: "5bdcc146bf60754e6a042426089575c75a003f089d2739839dec58b964ec3843",
    },
    MacExample {
        name: "hmac 3, 50 bytes",
        key: &[0xaa; 20],
        text: &[0xdd; 50],
        len: 32,
        published: "773ea91e36800e46854db8ebd09181a72959098b3ef8c122d9635514ced565fe",
    },
    MacExample {
        name: "hmac 4, key of 25",
        key: KEY_OF_25,
        text: &[0xcd; 50],
        len: 32,
        published: "82558a389a443c0ea4cc819899f2083a85f0faa3e578f8077a2e3ff46729665b",
    },
    MacExample {
        name: "hmac 5, first 16 bytes",
        key: &[0x0c; 20],
        text: b"Test With Truncation",
        len: 16,
        published: "a3b6167473100ee06e0c796c2955552b",
    },
    MacExample {
        name: "hmac 6, long key",
        key: LONG_KEY,
        text: b"Test Using Larger Than Block-Size Key - Hash Key First",
        len: 32,
        published: "60e431591ee0b67f0d8a26aacbf5b77f8e0bc6213728c5140546040f0ee37f54",
    },
    MacExample {
        name: "hmac 7, long key and text",
        key: LONG_KEY,
        text: b"This is a test using a larger than block-size key and a larger than block-size data. The key needs to be hashed before being used by the HMAC algorithm.",
        len: 32,
        published: "9b09ffa71b942fcb27635fbcd5b0e944bfdc63644f0713938a7f51535c3a35e2",
    },
];

// How many examples came out as published, of how many.
#[derive(Drop)]
struct Score {
    right: u32,
    all: u32,
}

impl Score {
    // Prints an example's line: whether it came out as published, its name, and what came out.
    fn note(
        &mut self,
        rt: &HostRuntime,
        name: &str,
        came: &[u8],
        published: &str,
    ) -> anyhow::Result<()> {
        let text = Hex(came).to_string(rt.alloc())?;
        let right = text.as_str() == published;
        self.all = self.all.saturating_add(1);
        if right {
            self.right = self.right.saturating_add(1);
        }
        let verdict = if right { "right" } else { "WRONG" };
        println!(rt; "{verdict}  {name:<28}  {text}")?;
        Ok(())
    }

    fn hashes(&mut self, rt: &HostRuntime, examples: &[HashExample]) -> anyhow::Result<()> {
        for example in examples {
            let came = sha256(example.message);
            self.note(rt, example.name, &came, example.published)?;
        }
        Ok(())
    }

    fn macs(&mut self, rt: &HostRuntime, examples: &[MacExample]) -> anyhow::Result<()> {
        for example in examples {
            let came = hmac(example.key, example.text);
            let len = example.len.min(came.len());
            self.note(rt, example.name, &came[..len], example.published)?;
        }
        Ok(())
    }
}

// A million times the letter a, in parts.
fn million() -> HashBytes {
    let part = [b'a'; 1000];
    let mut h = Hasher::new();
    for _ in 0..1000 {
        h.update(&part);
    }
    h.finish()
}

fn run(rt: &HostRuntime) -> anyhow::Result<()> {
    let mut score = Score { right: 0, all: 0 };
    score.hashes(rt, &MESSAGES)?;
    score.note(
        rt,
        "a million a",
        &million(),
        "cdc76e5c9914fb9281a1c7e284d73e67f1809a48a497200e046d39ccc7112cd0",
    )?;
    score.hashes(rt, &SHORT_MESSAGES)?;
    score.macs(rt, &MACS)?;
    let Score { right, all } = score;
    println!(rt; "{right} of {all} examples as published")?;
    Ok(())
}

fn main(rt: HostRuntime) -> anyhow::Result<()> {
    run(&rt)
}
