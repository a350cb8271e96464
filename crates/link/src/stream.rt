// What a link does with the bytes that it is given.
ghost use Rattle.std.specs.Prelude.{◌≡◌, ℕ, ◌+◌, ◌<◌, ◌≤◌, List, [], ◌∷◌, ◌++◌, length, take, drop, MatchOption};
ghost use Rattle.rules.specs.Machine.{Machine, fresh};
ghost use Rattle.rules.specs.Step.{after, step, answer};
ghost use Rattle.frames.specs.Spelling.{spelled};
ghost use Rattle.device.specs.Meaning.{Meaning};
ghost use Rattle.rules.specs.Laws.{Lawful};
ghost use Rattle.machine.specs.Sockets.{fresh_over};
ghost use Rattle.machine.specs.View.{view};
ghost use Rattle.link.specs.Stream.{Stands, GoesOn, said, taken, lines, all_lines, answers};
ghost use Rattle.link.specs.View.{held};

use super::Link;
use super::held::Held;
use frames::{ANSWER_LENGTH, Answer, FRAME_LENGTH};
use machine::{Engine, Sockets};

// How many bytes of the chunk were taken, and how many were written.
#[derive(Clone, Copy, Debug, PartialEq, Eq)]
pub struct Progress {
    pub read: usize,
    pub written: usize,
}

// What a run leaves: the link with its engine, and how far it came.
#[derive(Drop)]
pub struct Run<S> {
    pub link: Link<S>,
    pub progress: Progress,
}

// How many bytes were taken, and the answer, if a line ended.
#[derive(Clone, Copy)]
struct Advance {
    taken: usize,
    answer: Option<Answer>,
}

impl<S: Sockets> Link<S> {
    pub fn new(engine: Engine<S>) -> Self
        ensures { Stands (view S.meaning engine) [] (view S.meaning result.engine) (held result) }
    {
        Link {
            engine,
            held: Held::new(),
        }
    }

    // Runs an input on a new engine, as far as there is room for its answers: every line of what was taken is lawful.
    pub fn run(sockets: S, input: &[u8], out: &mut [u8]) -> Run<S>
        ensures read { result.progress.read ≡ taken input.now out.old }
        ensures stands { Stands (fresh_over (S.meaning sockets)) (take result.progress.read input.now) (view S.meaning result.link.engine) (held result.link) }
        ensures says { take result.progress.written out.new ≡ answers (fresh_over (S.meaning sockets)) (lines (take result.progress.read input.now)) }
        ensures rest { drop result.progress.written out.new ≡ drop result.progress.written out.old }
        ensures laws { Lawful (fresh_over (S.meaning sockets)) (lines (take result.progress.read input.now)) }
    {
        let mut link = Link::new(Engine::new(sockets));
        let progress = link.receive(input, out);
        Run { link, progress }
    }

    // Goes on with the bytes of the chunk, and writes the answer of each line that ends in it.
    // A byte is taken only where there is room for an answer to each byte before it and to itself.
    pub fn receive(&mut self, chunk: &[u8], out: &mut [u8]) -> Progress
        ensures read { result.read ≡ taken chunk.now out.old }
        ensures within { result.written ≤ length out.old }
        ensures received { GoesOn (view S.meaning self.old.engine) (held self.old) (view S.meaning self.new.engine) (held self.new) (take result.read chunk.now) (take result.written out.new) }
        ensures rest { drop result.written out.new ≡ drop result.written out.old }
        ensures laws { (ram rom card_a card_b : Meaning) (before : List ℕ) → Stands (fresh ram rom card_a card_b) before (view S.meaning self.old.engine) (held self.old) → Lawful (fresh ram rom card_a card_b) (lines (before ++ take result.read chunk.now)) }
    {
        let read = chunk.len().min(out.len() / ANSWER_LENGTH);
        let mut rest = &chunk[0..read];
        // Counted, since the caller is told it.
        let mut written = 0;
        while !rest.is_empty() {
            let next = self.advance(rest);
            if let Some(answer) = next.answer {
                put(out, written, answer);
                written += ANSWER_LENGTH;
            }
            rest = &rest[next.taken..];
        }
        Progress { read, written }
    }

    // The input has ended: a line that has a byte is answered.
    pub fn finish(&mut self) -> Option<Answer>
        ensures machine { (first : Machine) (bytes : List ℕ) → Stands first bytes (view S.meaning self.old.engine) (held self.old) → view S.meaning self.new.engine ≡ after first (all_lines bytes) }
        ensures says { (first : Machine) (bytes : List ℕ) → Stands first bytes (view S.meaning self.old.engine) (held self.old) → answers first (lines bytes) ++ said result ≡ answers first (all_lines bytes) }
        ensures held { held self.new ≡ [] }
        ensures laws { (ram rom card_a card_b : Meaning) (bytes : List ℕ) → Stands (fresh ram rom card_a card_b) bytes (view S.meaning self.old.engine) (held self.old) → Lawful (fresh ram rom card_a card_b) (all_lines bytes) }
    {
        if self.held.is_empty() {
            return None;
        }
        Some(self.end_line())
    }

    // Gives the engine back.
    pub fn into_engine(self) -> Engine<S>
        ensures { result ≡ self.engine }
    {
        let Link { engine, held: _ } = self;
        engine
    }

    // Takes a whole frame, as nearly always, or a byte.
    fn advance(&mut self, rest: &[u8]) -> Advance
        requires { 0 < length rest.now }
        ensures goes { GoesOn (view S.meaning self.old.engine) (held self.old) (view S.meaning self.new.engine) (held self.new) (take result.taken rest.now) (said result.answer) }
        ensures some { 0 < result.taken }
        ensures within { result.taken ≤ length rest.now }
    {
        match self.whole_frame(rest) {
            Some(answer) => Advance {
                taken: FRAME_LENGTH + 1,
                answer: Some(answer),
            },
            None => Advance {
                taken: 1,
                answer: self.next_byte(rest[0]),
            },
        }
    }

    // A whole frame that the bytes begin with, where no line is begun.
    fn whole_frame(&mut self, rest: &[u8]) -> Option<Answer>
        ensures { MatchOption result ((view S.meaning self.new.engine ≡ view S.meaning self.old.engine) × (held self.new ≡ held self.old)) (λ a. (13 ≤ length rest.now) × GoesOn (view S.meaning self.old.engine) (held self.old) (view S.meaning self.new.engine) (held self.new) (take 13 rest.now) (spelled a)) }
    {
        if self.held.is_empty() && rest.get(FRAME_LENGTH) == Some(&b'\n') {
            self.engine.frame_of_digits(&rest[0..FRAME_LENGTH])
        } else {
            None
        }
    }

    fn next_byte(&mut self, b: u8) -> Option<Answer>
        ensures { GoesOn (view S.meaning self.old.engine) (held self.old) (view S.meaning self.new.engine) (held self.new) (b ∷ []) (said result) }
    {
        if b == b'\n' {
            return Some(self.end_line());
        }
        self.held.push(b);
        None
    }

    // Answers the line of which the first bytes are held.
    fn end_line(&mut self) -> Answer
        ensures answer { result ≡ answer (view S.meaning self.old.engine) (held self.old) }
        ensures held { held self.new ≡ [] }
        ensures engine { view S.meaning self.new.engine ≡ step (view S.meaning self.old.engine) (held self.old) }
    {
        let answer = self.engine.frame(self.held.as_slice());
        self.held.clear();
        answer
    }
}

// Writes a spelled answer at its place.
fn put(out: &mut [u8], at: usize, answer: Answer)
    requires { at + 13 ≤ length out.old }
    ensures front { take (at + 13) out.new ≡ take at out.old ++ spelled answer }
    ensures rest { drop (at + 13) out.new ≡ drop (at + 13) out.old }
{
    let line = answer.spell();
    out[at..at + ANSWER_LENGTH].copy_from_slice(&line);
}
