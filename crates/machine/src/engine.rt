// The engine over any four devices.
ghost use Rattle.std.specs.Prelude.{◌≡◌, ◌<◌, IfSome, if◌then◌else◌, Some, None, Ok};
ghost use Rattle.device.specs.Meaning.{faded};
ghost use Rattle.mapper.specs.Translation.{leads, socket_number};
ghost use Rattle.mapper.specs.View.{words};
ghost use Rattle.power.specs.Power.{outputs};
ghost use Rattle.registers.specs.Registers.{bit, index};
ghost use Rattle.power.specs.View.{view as power_view};
ghost use Rattle.rules.specs.Access.{cpu_read, cpu_write, written_target};
ghost use Rattle.rules.specs.Laws.{Laws};
ghost use Rattle.frames.specs.Lines.{is_frame};
ghost use Rattle.rules.specs.Machine.{device, with_device, line, powered, fell, settled};
ghost use Rattle.rules.specs.Step.{outcome_as, done_as, outcome_of, done_by, outcome_if, step_if, answered, step, answer};
ghost use Rattle.frames.specs.Frames.{frame_of};
ghost use Rattle.machine.specs.Sockets.{fresh_over};
ghost use Rattle.machine.specs.View.{view};
ghost use Rattle.terms.specs.Results.{ok_map};
ghost use Rattle.frames.specs.declared.kind.Kind.TheVariants as kind;

use super::Sockets;
use frames::{Answer, Command, cut, decode, interpret};
use mapper::{PageTable, Socket};
use power::PowerUnit;
use registers::{Event, Register};
use terms::{CpuAddress, CpuPage, Refusal};

// An engine over what stands in its sockets.
// No `impl Model`: its value would hold the meanings of its devices, functions, which a model cannot have.
#[derive(Drop)]
pub struct Engine<S> {
    power: PowerUnit,
    pages: PageTable,
    sockets: S,
}

impl<S: Sockets> Engine<S> {
    // A new engine is as after a reset, its devices untouched.
    pub fn new(sockets: S) -> Self
        ensures { view S.meaning result ≡ fresh_over (S.meaning sockets) }
    {
        Engine {
            power: PowerUnit::new(),
            pages: PageTable::new(),
            sockets,
        }
    }

    // Answers one line, whatever its length and bytes.
    pub fn frame(&mut self, line: &[u8]) -> Answer
        ensures answer { result ≡ answer (view S.meaning self.old) line.now }
        ensures after { view S.meaning self.new ≡ step (view S.meaning self.old) line.now }
        ensures laws { Laws (view S.meaning self.old) line.now result (view S.meaning self.new) }
    {
        self.reply(decode(line))
    }

    // The same where the line is twelve digits, looked at once; any other line is left to `frame`, and nothing changes.
    pub fn frame_of_digits(&mut self, line: &[u8]) -> Option<Answer>
        ensures answer { result ≡ (if is_frame line.now then Some (answer (view S.meaning self.old) line.now) else None) }
        ensures after { view S.meaning self.new ≡ (if is_frame line.now then step (view S.meaning self.old) line.now else view S.meaning self.old) }
        ensures laws { IfSome result (λ a. Laws (view S.meaning self.old) line.now a (view S.meaning self.new)) }
    {
        let fields = cut(line)?;
        Some(self.reply(interpret(fields)))
    }

    // Gives the devices back, as the frames have left them.
    pub fn into_devices(self) -> S
        ensures { result ≡ self.sockets }
    {
        let Engine {
            power: _,
            pages: _,
            sockets,
        } = self;
        sockets
    }

    fn reply(&mut self, asked: Result<Command, Refusal>) -> Answer
        ensures answer { result ≡ answered (outcome_if (ok_map frame_of asked) (view S.meaning self.old)) (step_if (ok_map frame_of asked) (view S.meaning self.old)) }
        ensures after { view S.meaning self.new ≡ step_if (ok_map frame_of asked) (view S.meaning self.old) }
    {
        let outcome = self.attempt(asked);
        Answer {
            outcome,
            state: self.power.state(),
            outputs: self.power.outputs(),
            interrupt: self.power.interrupts(),
        }
    }

    fn attempt(&mut self, asked: Result<Command, Refusal>) -> Result<u16, Refusal>
        ensures outcome { result ≡ outcome_if (ok_map frame_of asked) (view S.meaning self.old) }
        ensures after { view S.meaning self.new ≡ step_if (ok_map frame_of asked) (view S.meaning self.old) }
    {
        let command = asked?;
        self.carry_out(command)
    }

    // Obeys the command; a socket whose line falls by it loses power.
    fn carry_out(&mut self, command: Command) -> Result<u16, Refusal>
        ensures outcome { result ≡ outcome_of (frame_of command) (view S.meaning self.old) }
        ensures after { view S.meaning self.new ≡ settled (outputs (view S.meaning self.old).power) (done_by (frame_of command) (view S.meaning self.old)) }
    {
        let before = self.power.outputs();
        let outcome = self.obey(command);
        self.settle(before);
        outcome
    }

    fn obey(&mut self, command: Command) -> Result<u16, Refusal>
        ensures outcome { result ≡ outcome_of (frame_of command) (view S.meaning self.old) }
        ensures after { view S.meaning self.new ≡ done_by (frame_of command) (view S.meaning self.old) }
    {
        match command {
            Command::Reset => self.reset(),
            Command::RegisterWrite(register, value) => self.register_write(register, value),
            Command::RegisterRead(register) => self.register_read(register),
            Command::PageWrite(page, word) => self.page_write(page, word),
            Command::PageRead(page) => self.page_read(page),
            Command::CpuWrite(address, value) => self.cpu_write(address, value),
            Command::CpuRead(address) => self.cpu_read(address),
            Command::Input(event) => self.input(event),
        }
    }

    fn reset(&mut self) -> Result<u16, Refusal>
        ensures outcome { result ≡ Ok 0 }
        ensures after { view S.meaning self.new ≡ done_as kind.Reset 0 0 (view S.meaning self.old) }
    {
        self.power = PowerUnit::new();
        self.pages = PageTable::new();
        Ok(0)
    }

    fn register_write(&mut self, register: Register, value: u8) -> Result<u16, Refusal>
        ensures outcome { result ≡ outcome_as kind.RegisterWrite (index register) value (view S.meaning self.old) }
        ensures after { view S.meaning self.new ≡ done_as kind.RegisterWrite (index register) value (view S.meaning self.old) }
    {
        self.power.write(register, value)?;
        Ok(0)
    }

    fn register_read(&mut self, register: Register) -> Result<u16, Refusal>
        ensures outcome { result ≡ outcome_as kind.RegisterRead (index register) 0 (view S.meaning self.old) }
        ensures after { view S.meaning self.new ≡ done_as kind.RegisterRead (index register) 0 (view S.meaning self.old) }
    {
        let value = self.power.read(register)?;
        Ok(u16::from(value))
    }

    fn page_write(&mut self, page: CpuPage, word: u16) -> Result<u16, Refusal>
        ensures outcome { result ≡ outcome_as kind.PageWrite page.number word (view S.meaning self.old) }
        ensures after { view S.meaning self.new ≡ done_as kind.PageWrite page.number word (view S.meaning self.old) }
    {
        self.power.check_awake()?;
        self.pages.store(page, word);
        Ok(0)
    }

    fn page_read(&self, page: CpuPage) -> Result<u16, Refusal>
        ensures { result ≡ outcome_as kind.PageRead page.number 0 (view S.meaning self.now) }
    {
        self.power.check_awake()?;
        Ok(self.pages.word(page))
    }

    fn cpu_read(&self, address: CpuAddress) -> Result<u16, Refusal>
        ensures { result ≡ outcome_as kind.CpuRead address.bits 0 (view S.meaning self.now) }
    {
        self.power.check_awake()?;
        let byte = self.read_at(address)?;
        Ok(u16::from(byte))
    }

    fn cpu_write(&mut self, address: CpuAddress, value: u8) -> Result<u16, Refusal>
        ensures outcome { result ≡ outcome_as kind.CpuWrite address.bits value (view S.meaning self.old) }
        ensures after { view S.meaning self.new ≡ done_as kind.CpuWrite address.bits value (view S.meaning self.old) }
    {
        self.power.check_awake()?;
        let written = self.write_at(address, value);
        if let Err(Refusal::PageReadOnly | Refusal::WriteProtected) = written {
            self.power.note_violation(address);
        }
        written?;
        Ok(0)
    }

    fn input(&mut self, event: Event) -> Result<u16, Refusal>
        ensures outcome { result ≡ outcome_of (frame_of (Command.Input event)) (view S.meaning self.old) }
        ensures after { view S.meaning self.new ≡ done_by (frame_of (Command.Input event)) (view S.meaning self.old) }
    {
        self.power.apply(event);
        Ok(0)
    }

    fn read_at(&self, address: CpuAddress) -> Result<u8, Refusal>
        ensures { result ≡ cpu_read (view S.meaning self.now) address.bits }
    {
        let at = self.pages.translate(address).ok_or(Refusal::PageNotMapped)?;
        if !self.powers(at.socket) {
            return Err(Refusal::SocketUnpowered);
        }
        let byte = self.sockets.read(at.socket, at.place)?;
        Ok(byte)
    }

    fn write_at(&mut self, address: CpuAddress, value: u8) -> Result<(), Refusal>
        ensures outcome { result ≡ cpu_write (view S.meaning self.old) address.bits }
        ensures after { view S.meaning self.new ≡ written_target (view S.meaning self.old) (leads (words self.old.pages) address.bits) value }
    {
        let at = self.pages.translate(address).ok_or(Refusal::PageNotMapped)?;
        if at.readonly {
            return Err(Refusal::PageReadOnly);
        }
        if !self.powers(at.socket) {
            return Err(Refusal::SocketUnpowered);
        }
        self.sockets.write(at.socket, at.place, value)?;
        Ok(())
    }

    // Whether the socket's power line is 1.
    fn powers(&self, socket: Socket) -> bool
        ensures { result ≡ powered (power_view self.now.power) (socket_number socket) }
    {
        has_line(self.power.outputs(), socket)
    }

    // Each socket whose line has fallen since the outputs were `before` loses power.
    fn settle(&mut self, before: u8)
        ensures { view S.meaning self.new ≡ settled before (view S.meaning self.old) }
    {
        let after = self.power.outputs();
        // Four calls and no loop, which would have to say how far it has come.
        self.settle_socket(Socket::Ram, before, after);
        self.settle_socket(Socket::Rom, before, after);
        self.settle_socket(Socket::CardA, before, after);
        self.settle_socket(Socket::CardB, before, after);
    }

    // The socket loses power if its line has fallen from the one outputs to the other.
    fn settle_socket(&mut self, socket: Socket, before: u8, after: u8)
        ensures { view S.meaning self.new ≡ with_device (socket_number socket) (if fell before after (socket_number socket) then faded (device (view S.meaning self.old) (socket_number socket)) else device (view S.meaning self.old) (socket_number socket)) (view S.meaning self.old) }
    {
        if line_fell(before, after, socket) {
            self.sockets.lose_power(socket);
        }
    }
}

// Whether the socket's line is 1 in the outputs.
fn has_line(outputs: u8, socket: Socket) -> bool
    ensures { result ≡ bit (line (socket_number socket)) outputs }
{
    (outputs >> line(socket)) % 2 == 1
}

// The bit of the outputs that is the socket's line: D1 RAM, D2 ROM, D3 both cards.
fn line(socket: Socket) -> u8
    ensures line { result ≡ line (socket_number socket) }
    ensures bound { result < 8 }
{
    match socket {
        Socket::Ram => 1,
        Socket::Rom => 2,
        Socket::CardA | Socket::CardB => 3,
    }
}

fn line_fell(before: u8, after: u8, socket: Socket) -> bool
    ensures { result ≡ fell before after (socket_number socket) }
{
    has_line(before, socket) && !has_line(after, socket)
}
