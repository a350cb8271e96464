// What a line is answered, and how that is spelled.
ghost use Rattle.std.specs.Prelude.{◌≡◌, ◌<◌, [], ◌∷◌};
ghost use Rattle.frames.specs.Spelling.{number_of, value_of, digit_byte, two_digits, spelled};

use registers::State;
use terms::Refusal;

#[derive(Clone, Copy, Debug, PartialEq, Eq)]
pub struct Answer {
    // The value read, 0 where nothing is read, or why the line was refused.
    pub outcome: Result<u16, Refusal>,
    // The last three are as the line leaves them.
    pub state: State,
    pub outputs: u8,
    pub interrupt: bool,
}

// The bytes of a spelled answer: twelve digits and the end of the line.
pub const ANSWER_LENGTH: usize = 13;

impl Answer {
    pub fn number(&self) -> u8
        ensures { result ≡ number_of self.now.outcome }
    {
        match self.outcome {
            Ok(_) => 0,
            Err(refusal) => refusal.number(),
        }
    }

    pub fn value(&self) -> u16
        ensures { result ≡ value_of self.now.outcome }
    {
        self.outcome.unwrap_or(0)
    }

    // Number, value read, state, outputs, NMI, and the end of the line. No `Display`: the contract names each byte, and an
    // answer is written without a formatter.
    pub fn spell(&self) -> [u8; ANSWER_LENGTH]
        ensures { result ≡ spelled self.now }
    {
        let value = self.value();
        let [n1, n0] = two_digits(self.number());
        let [v3, v2] = two_digits((value / 0x100) as u8);
        let [v1, v0] = two_digits((value % 0x100) as u8);
        let [s1, s0] = two_digits(self.state.number());
        let [o1, o0] = two_digits(self.outputs);
        let [i1, i0] = two_digits(u8::from(self.interrupt));
        [n1, n0, v3, v2, v1, v0, s1, s0, o1, o0, i1, i0, b'\n']
    }
}

fn two_digits(n: u8) -> [u8; 2]
    ensures { result ≡ two_digits n }
{
    [digit_byte(n / 0x10), digit_byte(n % 0x10)]
}

fn digit_byte(d: u8) -> u8
    requires { d < 16 }
    ensures { result ≡ digit_byte d }
{
    if d < 10 { b'0' + d } else { b'A' - 10 + d }
}
