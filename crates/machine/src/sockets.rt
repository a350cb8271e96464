// The four sockets, each with the device that stands in it.
ghost use Rattle.std.specs.Prelude.{◌≡◌};
ghost use Rattle.device.specs.Meaning.{read_at, write_at, written, faded};
ghost use Rattle.mapper.specs.Translation.{socket_number};
ghost use Rattle.machine.specs.Sockets.{Meanings, of_socket, with_socket};

use device::Device;
use mapper::Socket;
use terms::{Fault, Place};

// What an engine asks of its sockets.
pub trait Sockets {
    ghost meaning: { Self → Meanings };

    fn read(&self, socket: Socket, place: Place) -> Result<u8, Fault>
        ensures { result ≡ read_at (of_socket (meaning self.now) (socket_number socket)) place.index };

    fn write(&mut self, socket: Socket, place: Place, value: u8) -> Result<(), Fault>
        ensures answer { result ≡ write_at (of_socket (meaning self.old) (socket_number socket)) place.index }
        ensures after { meaning self.new ≡ with_socket (socket_number socket) (written (of_socket (meaning self.old) (socket_number socket)) place.index value) (meaning self.old) };

    // The socket's power is lost.
    fn lose_power(&mut self, socket: Socket)
        ensures { meaning self.new ≡ with_socket (socket_number socket) (faded (of_socket (meaning self.old) (socket_number socket))) (meaning self.old) };
}

// A device in each socket.
#[derive(Drop)]
pub struct Devices<R, O, CA, CB> {
    pub ram: R,
    pub rom: O,
    pub card_a: CA,
    pub card_b: CB,
}

// Each function names all four devices: one that picked a device for them would hand out a `dyn`.
impl<R: Device, O: Device, CA: Device, CB: Device> Sockets for Devices<R, O, CA, CB> {
    ghost meaning = { λ d. record { ram = R.Device.meaning d.ram; rom = O.Device.meaning d.rom; card_a = CA.Device.meaning d.card_a; card_b = CB.Device.meaning d.card_b } };

    fn read(&self, socket: Socket, place: Place) -> Result<u8, Fault> {
        match socket {
            Socket::Ram => self.ram.read(place),
            Socket::Rom => self.rom.read(place),
            Socket::CardA => self.card_a.read(place),
            Socket::CardB => self.card_b.read(place),
        }
    }

    fn write(&mut self, socket: Socket, place: Place, value: u8) -> Result<(), Fault> {
        match socket {
            Socket::Ram => self.ram.write(place, value),
            Socket::Rom => self.rom.write(place, value),
            Socket::CardA => self.card_a.write(place, value),
            Socket::CardB => self.card_b.write(place, value),
        }
    }

    fn lose_power(&mut self, socket: Socket) {
        match socket {
            Socket::Ram => self.ram.lose_power(),
            Socket::Rom => self.rom.lose_power(),
            Socket::CardA => self.card_a.lose_power(),
            Socket::CardB => self.card_b.lose_power(),
        }
    }
}
