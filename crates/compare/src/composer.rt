// Writes lists of lines: scenes that have a sense of their own, one after the other.
use crate::boards::Setup;
use crate::damage::{distort, spoil};
use crate::line::{Frame, Line};
use crate::pools;
use crate::pools::Awake;
use crate::random::Random;
use crate::script::Script;
use crate::second::stack::{Board, Layer};
use frames::Kind;
use registers::{Register, State};
use std::alloc::{AllocError, Global};
use terms::PAGE_SIZE;

// A match plays them: functions in a table would each need a ghost field that says that they can be called.
#[derive(Clone, Copy)]
enum Scene {
    Single,
    Map,
    Access,
    Violation,
    PowerLines,
    Ticks,
    IdleOut,
    Press,
    Rings,
    Battery,
    Causes,
    Survey,
    Sleep,
    Distorted,
    Damaged,
    Reset,
}

// The scenes by how often they come.
const SCENES: [(Scene, usize); 16] = [
    (Scene::Single, 6),
    (Scene::Map, 2),
    (Scene::Access, 7),
    (Scene::Violation, 3),
    (Scene::PowerLines, 2),
    (Scene::Ticks, 1),
    (Scene::IdleOut, 2),
    (Scene::Press, 2),
    (Scene::Rings, 1),
    (Scene::Battery, 1),
    (Scene::Causes, 3),
    (Scene::Survey, 1),
    (Scene::Sleep, 2),
    (Scene::Distorted, 3),
    (Scene::Damaged, 2),
    (Scene::Reset, 1),
];

// Room for the layers of any board.
const LAYERS: usize = 16;

// How many pages CPU addresses have.
const PAGES: usize = 64;

// The ticks that a unit of a load stands for.
const TICKS_PER_LOAD: usize = 32;

const MOST_LINES: usize = 300;

#[derive(Drop)]
pub struct Composer {
    heap: Global,
    random: Random,
    script: Script,
    // For each layer of the board that the list is for, the size of a chip.
    layers: Vec<Option<usize>>,
}

impl Composer {
    pub fn new(heap: Global, seed: u64) -> Result<Composer, AllocError> {
        Ok(Composer {
            heap,
            random: Random::new(seed),
            script: Script::new(heap, 0)?,
            layers: Vec::new(heap),
        })
    }

    // A new list of 200 to 300 lines for the board.
    pub fn compose(&mut self, setup: &Setup) -> Result<&[Line], AllocError> {
        self.layers = layers_of(self.heap, &setup.describe(self.heap)?)?;
        let goal = 200 + self.random.below(101);
        self.script = Script::new(self.heap, goal)?;
        self.map();
        // Each scene has a line at least.
        for _ in 0..MOST_LINES {
            if self.script.is_full() {
                break;
            }
            let scene = self.random.pick_weighted(&SCENES);
            self.play(scene);
        }
        Ok(self.script.lines())
    }

    fn play(&mut self, scene: Scene) {
        match scene {
            Scene::Single => self.single(),
            Scene::Map => self.map(),
            Scene::Access => self.access(),
            Scene::Violation => self.violation(),
            Scene::PowerLines => self.power_lines(),
            Scene::Ticks => self.some_ticks(),
            Scene::IdleOut => self.idle_out(),
            Scene::Press => self.press(),
            Scene::Rings => self.rings(),
            Scene::Battery => self.battery(),
            Scene::Causes => self.read_causes(),
            Scene::Survey => self.survey(),
            Scene::Sleep => self.sleep(),
            Scene::Distorted => self.distorted(),
            Scene::Damaged => self.damaged(),
            Scene::Reset => self.reset(),
        }
    }

    fn add(&mut self, kind: Kind, a: u32, v: u16) {
        self.script.add(Line::from(Frame::new(kind, a, v)));
    }

    fn write(&mut self, register: Register, value: u16) {
        self.add(Kind::RegisterWrite, register as u32, value);
    }

    fn read(&mut self, register: Register) {
        self.add(Kind::RegisterRead, register as u32, 0);
    }

    fn enter(&mut self, state: State) {
        self.write(Register::State, state as u16);
    }

    fn single(&mut self) {
        let frame = self.any_frame();
        self.script.add(Line::from(frame));
    }

    fn map(&mut self) {
        for page in pools::MAPPED_PAGES {
            let word = self.page_word();
            self.add(Kind::PageWrite, page, word);
        }
    }

    // A byte is written and read back, and its neighbour is read.
    fn access(&mut self) {
        let address = self.address();
        let byte = self.random.pick(&pools::BYTES);
        self.add(Kind::CpuRead, address, 0);
        self.add(Kind::CpuWrite, address, byte);
        self.add(Kind::CpuRead, address, 0);
        self.add(Kind::CpuRead, address ^ 1, 0);
    }

    // A write that may be forbidden, and what is noted of it.
    fn violation(&mut self) {
        let mask = self.random.pick(&pools::MASKS);
        let address = self.address();
        self.write(Register::Mask, mask);
        self.add(Kind::CpuWrite, address, 0x77);
        for register in pools::VIOLATION {
            self.read(register);
        }
        if self.random.one_in(2) {
            self.fall_asleep();
        }
    }

    // Other outputs in a state, which can be a power loss, and what can be reached then.
    fn power_lines(&mut self) {
        let Awake { state, outputs, .. } = self.random.pick(&pools::AWAKE);
        let lines = self.random.pick(&pools::OUTPUTS);
        self.enter(state);
        self.write(outputs, lines);
        self.access();
        if !self.random.one_in(4) {
            self.write(outputs, 0x0F);
            self.access();
        }
    }

    fn some_ticks(&mut self) {
        let count = 1 + self.random.below(40);
        self.ticks(count);
    }

    fn ticks(&mut self, count: usize) {
        for _ in 0..count {
            self.add(Kind::Tick, 0, 0);
        }
    }

    // The idle counter of a state runs out, or nearly; a line on the way may set it anew or stop it.
    fn idle_out(&mut self) {
        let Awake { state, load, .. } = self.random.pick(&pools::AWAKE);
        let mask = self.random.pick(&pools::MASKS);
        let ac = u16::from(self.random.one_in(4));
        let units = if self.random.one_in(8) { 2 } else { 1 };
        let early = self.random.below(TICKS_PER_LOAD);
        let late = self.random.below(3);
        self.add(Kind::Ac, 0, ac);
        self.write(Register::Mask, mask);
        self.enter(state);
        self.write(load, units as u16);
        self.ticks(early);
        self.meddle();
        self.ticks(TICKS_PER_LOAD * units - early + late);
        self.add(Kind::Activity, 0, 0);
    }

    // What may set the idle counter, stop it, let it go on, or change what follows when it runs out.
    // By a number: the steps are few, each as likely as another, and named where they stand.
    fn meddle(&mut self) {
        match self.random.below(5) {
            0 => {
                let mask = self.random.pick(&pools::MASKS);
                self.write(Register::Mask, mask);
            }
            1 => self.add(Kind::Ac, 0, 0),
            2 => {
                let Awake { load, .. } = self.random.pick(&pools::AWAKE);
                let units = self.random.pick(&pools::LOADS);
                self.write(load, units);
            }
            3 => {
                let Awake { state, .. } = self.random.pick(&pools::AWAKE);
                self.enter(state);
            }
            _ => self.single(),
        }
    }

    // EXT low for up to three ticks, then high.
    fn press(&mut self) {
        let count = self.random.below(4);
        self.add(Kind::Ext, 0, 0);
        self.ticks(count);
        self.add(Kind::Ext, 0, 1);
    }

    fn rings(&mut self) {
        let count = 1 + self.random.below(8);
        for _ in 0..count {
            self.add(Kind::Ring, 0, 0);
            self.add(Kind::Ring, 0, 1);
        }
    }

    fn battery(&mut self) {
        self.add(Kind::Battery, 0, 0);
        self.add(Kind::Battery, 0, 1);
    }

    fn read_causes(&mut self) {
        self.read(Register::Cause);
    }

    // All registers, and the words of the pages that lines touch.
    fn survey(&mut self) {
        for (register, _) in pools::REGISTERS {
            self.read(register);
        }
        for page in pools::PAGES {
            self.add(Kind::PageRead, page, 0);
        }
    }

    // Suspend or Off, some lines there, and mostly what ends it.
    fn sleep(&mut self) {
        if !self.random.one_in(4) {
            self.read_causes();
        }
        let wake = self.random.pick(&pools::WAKES);
        self.write(Register::Wake, wake);
        self.fall_asleep();
        let count = self.random.below(12);
        for _ in 0..count {
            self.single();
        }
        if !self.random.one_in(8) {
            self.wake();
        }
    }

    fn fall_asleep(&mut self) {
        let state = self.random.pick(&pools::SLEEPS);
        self.enter(state);
    }

    // By a number: the steps are few, each as likely as another, and named where they stand.
    fn wake(&mut self) {
        match self.random.below(3) {
            0 => self.rings(),
            1 => self.add(Kind::Alarm, 0, 0),
            _ => self.press(),
        }
        // Some of these do not wake, but a press after two low samples does.
        self.add(Kind::Ext, 0, 0);
        self.ticks(2);
        self.add(Kind::Ext, 0, 1);
    }

    fn reset(&mut self) {
        self.add(Kind::Reset, 0, 0);
        self.map();
    }

    // A frame with fields that do not fit its kind, or of no kind.
    fn distorted(&mut self) {
        if self.random.one_in(2) {
            let (kind, a, v) = self.random.pick(&pools::JUST_BEYOND);
            self.add(kind, a, v);
            return;
        }
        let frame = self.any_frame();
        self.script
            .add(Line::from(distort(&mut self.random, frame)));
    }

    fn damaged(&mut self) {
        let mut line = Line::from(self.any_frame());
        spoil(&mut self.random, &mut line);
        self.script.add(line);
    }

    fn any_frame(&mut self) -> Frame {
        let kind = self.random.pick_weighted(&pools::KINDS);
        self.frame(kind)
    }

    // A well-formed frame of the kind.
    fn frame(&mut self, kind: Kind) -> Frame {
        match kind {
            Kind::Reset | Kind::Tick | Kind::Alarm => Frame::new(kind, 0, 0),
            Kind::RegisterWrite => self.register_write(),
            Kind::RegisterRead => Frame::new(kind, self.random.below(16) as u32, 0),
            Kind::PageWrite => {
                let page = self.page();
                Frame::new(kind, page, self.page_word())
            }
            Kind::PageRead => Frame::new(kind, self.page(), 0),
            Kind::CpuWrite => {
                let address = self.address();
                Frame::new(kind, address, self.random.pick(&pools::BYTES))
            }
            Kind::CpuRead => Frame::new(kind, self.address(), 0),
            Kind::Activity => Frame::new(kind, self.random.below(8) as u32, 0),
            Kind::Ext | Kind::Ring | Kind::Battery | Kind::Ac => {
                Frame::new(kind, 0, self.random.below(2) as u16)
            }
        }
    }

    fn register_write(&mut self) -> Frame {
        let register = self.random.pick_weighted(&pools::REGISTERS);
        let value = match register {
            Register::State => self.random.pick(&pools::STATES) as u16,
            // At times any value, which need not tell anything.
            _ if self.random.one_in(8) => u16::from(self.random.byte()),
            Register::DozeLoad | Register::SleepLoad | Register::SuspendLoad => {
                self.random.pick(&pools::LOADS)
            }
            Register::Mask => self.random.pick(&pools::MASKS),
            Register::Wake => self.random.pick(&pools::WAKES),
            Register::ActivityMask => self.random.pick(&pools::IGNORED),
            Register::OnOutputs
            | Register::DozeOutputs
            | Register::SleepOutputs
            | Register::SuspendOutputs => self.random.pick(&pools::OUTPUTS),
            // The others are never written, whatever the value.
            _ => self.random.pick(&pools::BYTES),
        };
        Frame::new(Kind::RegisterWrite, register as u32, value)
    }

    // One of a few pages, and at times any.
    fn page(&mut self) -> u32 {
        if self.random.one_in(8) {
            self.random.below(PAGES) as u32
        } else {
            self.random.pick(&pools::PAGES)
        }
    }

    // Mostly mapped, mostly writable, to any socket, and at times any word.
    fn page_word(&mut self) -> u16 {
        if self.random.one_in(16) {
            return self.random.below(0x1_0000) as u16;
        }
        let mapped = if self.random.one_in(8) { 0 } else { 0x8000 };
        let read_only = if self.random.one_in(6) { 0x4000 } else { 0 };
        let socket = 0x1000 * self.random.below(4) as u16;
        let device_page = self.random.pick(&pools::DEVICE_PAGES);
        mapped | read_only | socket | device_page
    }

    fn address(&mut self) -> u32 {
        let page = self.page();
        page.wrapping_mul(PAGE_SIZE).wrapping_add(self.offset())
    }

    // An offset of its own, or one near the end of a chip or of a pair of such chips.
    fn offset(&mut self) -> u32 {
        if self.random.one_in(2) {
            return self.random.pick(&pools::OFFSETS);
        }
        match self.layers.get(self.random.below(LAYERS)) {
            Some(Some(size)) => {
                let end = if self.random.one_in(2) {
                    *size
                } else {
                    size.saturating_mul(2)
                };
                let near = end.saturating_add(1).saturating_sub(self.random.below(3));
                (near % PAGE_SIZE as usize) as u32
            }
            _ => self.random.pick(&pools::OFFSETS),
        }
    }
}

// The layers of a board from socket to socket, each after those below it.
fn layers_of(heap: Global, board: &Board) -> Result<Vec<Option<usize>>, AllocError> {
    let mut layers = Vec::with_capacity(heap, LAYERS)?;
    list_layers(&mut layers, &board.ram)?;
    list_layers(&mut layers, &board.rom)?;
    list_layers(&mut layers, &board.card_a)?;
    list_layers(&mut layers, &board.card_b)?;
    Ok(layers)
}

fn list_layers(layers: &mut Vec<Option<usize>>, layer: &Layer) -> Result<(), AllocError> {
    let size = match layer {
        Layer::Chip(chip) => Some(chip.size),
        Layer::Empty => None,
        Layer::Guard { below, .. } => {
            list_layers(layers, below)?;
            None
        }
        Layer::Pair { even, odd } => {
            list_layers(layers, even)?;
            list_layers(layers, odd)?;
            None
        }
    };
    layers.push(size)?;
    Ok(())
}
