// What is a line, and what is a frame: bytes given to a link, in chunks of several sizes.
ghost use Rattle.std.specs.Prelude.{◌<◌};

use super::trial::{Answers, Trial, on_board};
use frames::ANSWER_LENGTH;
use std::process::Abort;
use std::test::*;

// A whole input, and all that must be answered to it.
#[derive(Clone, Copy)]
struct Stream<'a>(&'a [u8], &'a [u8]);

// No input is longer.
const LONGEST: usize = 256;

// Room for an answer to every byte of a chunk.
const ROOM: usize = ANSWER_LENGTH * LONGEST;

static STREAMS: [Stream; 20] = [
    // No byte, no line.
    Stream(b"", b""),
    Stream(b"\n", b"010000000F00\n"),
    Stream(
        b"\n\n060FC0050000\n",
        b"010000000F00\n010000000F00\n000005000F00\n",
    ),
    // No line follows the last end of a line, and a last line may have none.
    Stream(b"060FC0050000\n", b"000005000F00\n"),
    Stream(b"060FC0050000", b"000005000F00\n"),
    Stream(
        b"060FC0050000\n060FC0060000",
        b"000005000F00\n000006000F00\n",
    ),
    Stream(b"060FC0050000\n06", b"000005000F00\n010000000F00\n"),
    // Eleven digits, thirteen, twice twelve.
    Stream(
        b"060FC005000\n060FC0060000\n",
        b"010000000F00\n000006000F00\n",
    ),
    Stream(
        b"060FC00500000\n060FC0060000\n",
        b"010000000F00\n000006000F00\n",
    ),
    Stream(b"060FC0050000060FC0050000\n", b"010000000F00\n"),
    // The end of a long line looks like a frame, and is a chunk of its own at thirteen bytes.
    Stream(
        b"0000000000000060FC0050000\n060FC0060000\n",
        b"010000000F00\n000006000F00\n",
    ),
    // Two hundred digits.
    Stream(
        b"00000000000000000000000000000000000000000000000000\
          00000000000000000000000000000000000000000000000000\
          00000000000000000000000000000000000000000000000000\
          00000000000000000000000000000000000000000000000000\n\
          060FC0060000\n",
        b"010000000F00\n000006000F00\n",
    ),
    // Digits are capitals.
    Stream(b"060fc0050000\n", b"010000000F00\n"),
    // A carriage return belongs to its line.
    Stream(b"\r\n060FC0050000\r\n", b"010000000F00\n010000000F00\n"),
    Stream(b"060FC0050000\n\r", b"000005000F00\n010000000F00\n"),
    // Twelve bytes of which one is no digit.
    Stream(b"060FC005000 \n", b"010000000F00\n"),
    Stream(
        b"060FC005000\xB0\n060FC0060000\n",
        b"010000000F00\n000006000F00\n",
    ),
    Stream(
        b"060FC005000\0\n060FC0060000\n",
        b"010000000F00\n000006000F00\n",
    ),
    Stream(b"\xFF\x80\n\xFF", b"010000000F00\n010000000F00\n"),
    Stream(b"\0\n\0", b"010000000F00\n010000000F00\n"),
];

#[test]
fn answers_are_the_same_in_any_chunks(rt: HostRuntime) -> Result<(), Fail> {
    for (number, stream) in STREAMS.iter().enumerate() {
        hold_all(&rt, number, *stream)?;
    }
    Ok(())
}

// Every size, from single bytes to the whole input at once.
fn hold_all(rt: &impl Abort, number: usize, stream: Stream) -> Result<(), Fail> {
    for size in 1..=LONGEST {
        on_board(
            rt,
            Chunked {
                number,
                stream,
                size,
            },
        )?;
    }
    Ok(())
}

// A stream that comes in chunks of one size.
#[derive(Clone, Copy)]
struct Chunked<'a> {
    number: usize,
    stream: Stream<'a>,
    size: usize,
    ghost some: { 0 < size },
}

impl Trial for Chunked<'_> {
    fn run(self, rt: &impl Abort, link: &mut impl Answers) -> Result<(), Fail> {
        let Stream(input, answers) = self.stream;
        let mut expected = Expected {
            answers,
            trial: self,
        };
        for chunk in input.chunks(self.size) {
            expected.meet_chunk(rt, link, chunk);
        }
        expected.meet_end(rt, link);
        Ok(())
    }
}

// What is still to be answered in a trial.
#[derive(Drop)]
struct Expected<'a> {
    answers: &'a [u8],
    trial: Chunked<'a>,
}

impl Expected<'_> {
    fn meet_chunk(&mut self, rt: &impl Abort, link: &mut impl Answers, chunk: &[u8]) {
        let mut out = [0; ROOM];
        let n = link.answer(chunk, &mut out);
        self.meet(rt, &out[0..n]);
    }

    fn meet_end(&self, rt: &impl Abort, link: &mut impl Answers) {
        let Chunked { number, size, .. } = self.trial;
        match link.answer_end() {
            Some(answer) => {
                assert!(rt;
                    self.answers == answer.as_slice(),
                    "the end of stream {number} in chunks of {size}"
                );
            }
            None => {
                assert!(rt;
                    self.answers.is_empty(),
                    "no end of stream {number} in chunks of {size}"
                );
            }
        }
    }

    // Takes off what is answered now.
    fn meet(&mut self, rt: &impl Abort, answers: &[u8]) {
        let Chunked { number, size, .. } = self.trial;
        match self.answers.strip_prefix(answers) {
            Some(rest) => self.answers = rest,
            None => panic!(rt; "another answer is expected of stream {number} in chunks of {size}"),
        }
    }
}
