ghost use Rattle.std.specs.Prelude.{◌≡◌, ℕ, List};

use hash::HashBytes;

// The ten bytes of a command.
pub type Command = [u8; 10];

// A service means a state and a fixed step, which turns state, client and command into a state and an answer.
// Its digest depends on the state alone. Client and command stand apart, as a replica hands them over.
pub trait Service {
    ghost State: { Type 0 };

    ghost state: { Self → State };

    ghost after: { State → ℕ → List ℕ → State };

    ghost answer: { State → ℕ → List ℕ → ℕ };

    ghost digest: { State → List ℕ };

    fn step(&mut self, client: u16, command: &Command) -> u64
        ensures value { result ≡ answer (state self.old) client command.now }
        ensures next { state self.new ≡ after (state self.old) client command.now };

    fn digest(&self) -> HashBytes
        ensures { result ≡ digest (state self.now) };
}
