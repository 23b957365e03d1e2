// A trail: a hash chain over all commands, from which a service's order can be checked.
ghost use Rattle.std.specs.Prelude.{◌≡◌, ℕ, List};
ghost use Rattle.service.specs.Trails.{fresh_trail, trail_after, trail_answer};

use crate::service::{Command, Service};
use hash::{HashBytes, Hasher};

#[derive(Drop)]
pub struct Trail {
    bytes: HashBytes,
}

impl Trail {
    // A trail that no command has left yet.
    pub fn new() -> Trail
        ensures { result.bytes ≡ fresh_trail }
    {
        Trail { bytes: [0; 32] }
    }

    // The trail after one more command.
    fn next(&self, client: u16, command: &Command) -> HashBytes
        ensures { result ≡ trail_after self.now.bytes client command.now }
    {
        let mut h = Hasher::new();
        h.update(&self.bytes);
        h.update(&client.to_be_bytes());
        h.update(command);
        h.finish()
    }
}

impl Service for Trail {
    ghost State = { List ℕ };

    ghost state = { λ trail. trail.bytes };

    ghost after = { λ bytes client command. trail_after bytes client command };

    ghost answer = { λ bytes client command. trail_answer bytes client command };

    ghost digest = { λ bytes. bytes };

    fn step(&mut self, client: u16, command: &Command) -> u64 {
        self.bytes = self.next(client, command);
        let [a, b, c, d, e, f, g, h, ..] = self.bytes;
        u64::from_be_bytes([a, b, c, d, e, f, g, h])
    }

    fn digest(&self) -> HashBytes {
        self.bytes
    }
}
