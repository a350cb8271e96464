// The memory board: chips, and the layers over them.

// The most places that a device has.
const MOST_PLACES: usize = 0x400_0000;

#[derive(Clone, Copy, PartialEq, Eq)]
pub enum ChipKind {
    Ram,
    BackedRam,
    Rom,
}

// A chip, whose bytes are some of the flat list of all bytes.
#[derive(Clone, Copy)]
pub struct Chip {
    pub kind: ChipKind,
    pub start: usize,
    pub size: usize,
}

// A device: a chip, nothing, or a layer over other devices.
#[derive(Drop)]
pub enum Layer {
    Chip(Chip),
    Empty,
    // Write-protects the segments whose numbers are in `flags`.
    Guard {
        below: Box<Layer>,
        segment: usize,
        flags: [u8; 4],
    },
    // Has the places of two devices by turns.
    Pair {
        even: Box<Layer>,
        odd: Box<Layer>,
    },
}

// The four devices, and the length of the list that has the bytes of all their chips.
#[derive(Drop)]
pub struct Board {
    pub ram: Layer,
    pub rom: Layer,
    pub card_a: Layer,
    pub card_b: Layer,
    pub bytes: usize,
}

// What a place of a device is at bottom: one byte of the flat list.
#[derive(Clone, Copy)]
pub struct Place {
    pub byte: usize,
    pub is_writable: bool,
    pub is_volatile: bool,
}

#[derive(Clone, Copy)]
pub enum Socket {
    Ram,
    Rom,
    CardA,
    CardB,
}

// A line of the power outputs that supplies sockets.
#[derive(Clone, Copy, PartialEq, Eq)]
pub enum PowerLine {
    Ram,
    Rom,
    Cards,
}

// The power outputs as they are at one moment.
#[derive(Clone, Copy)]
pub struct Outputs(pub u8);

impl Outputs {
    pub const AFTER_RESET: Outputs = Outputs(0x0F);

    pub const NONE: Outputs = Outputs(0x00);

    pub fn supplies(self, line: PowerLine) -> bool {
        let bit = match line {
            PowerLine::Ram => 0x02,
            PowerLine::Rom => 0x04,
            PowerLine::Cards => 0x08,
        };
        self.0 & bit != 0
    }
}

impl Socket {
    pub fn power_line(self) -> PowerLine {
        match self {
            Socket::Ram => PowerLine::Ram,
            Socket::Rom => PowerLine::Rom,
            Socket::CardA | Socket::CardB => PowerLine::Cards,
        }
    }
}

impl Board {
    pub fn device(&self, socket: Socket) -> &Layer {
        match socket {
            Socket::Ram => &self.ram,
            Socket::Rom => &self.rom,
            Socket::CardA => &self.card_a,
            Socket::CardB => &self.card_b,
        }
    }

    // What is left in the flat list when the power line has fallen.
    pub fn lose_power(&self, line: PowerLine, bytes: &mut [u8]) {
        match line {
            PowerLine::Ram => self.ram.lose_power(bytes),
            PowerLine::Rom => self.rom.lose_power(bytes),
            PowerLine::Cards => {
                self.card_a.lose_power(bytes);
                self.card_b.lose_power(bytes);
            }
        }
    }
}

impl Chip {
    // The place of that number, or none where the chip has not so many.
    fn place(&self, number: usize) -> Option<Place> {
        if number >= self.size.min(MOST_PLACES) {
            return None;
        }
        Some(Place {
            byte: self.start.checked_add(number)?,
            is_writable: self.kind != ChipKind::Rom,
            is_volatile: self.kind == ChipKind::Ram,
        })
    }

    fn lose_power(&self, bytes: &mut [u8]) {
        if self.kind != ChipKind::Ram {
            return;
        }
        let end = self.start.saturating_add(self.size.min(MOST_PLACES));
        if let Some(own) = bytes.get_mut(self.start..end) {
            own.fill(0xFF);
        }
    }
}

impl Layer {
    // The place of that number, or none where the device has not so many.
    pub fn place(&self, number: usize) -> Option<Place> {
        match self {
            Layer::Chip(chip) => chip.place(number),
            Layer::Empty => None,
            Layer::Guard {
                below,
                segment,
                flags,
            } => {
                let place = below.place(number)?;
                let is_flagged = number
                    .checked_div(*segment)
                    .is_some_and(|own| flags.iter().any(|flag| usize::from(*flag) == own));
                Some(Place {
                    is_writable: place.is_writable && !is_flagged,
                    ..place
                })
            }
            Layer::Pair { even, odd } => {
                // The pair ends where the shorter half does, so both halves have to have the place.
                let of_even = even.place(number / 2)?;
                let of_odd = odd.place(number / 2)?;
                Some(if number % 2 == 0 { of_even } else { of_odd })
            }
        }
    }

    fn lose_power(&self, bytes: &mut [u8]) {
        match self {
            Layer::Chip(chip) => chip.lose_power(bytes),
            Layer::Empty => {}
            Layer::Guard { below, .. } => below.lose_power(bytes),
            Layer::Pair { even, odd } => {
                even.lose_power(bytes);
                odd.lose_power(bytes);
            }
        }
    }
}
