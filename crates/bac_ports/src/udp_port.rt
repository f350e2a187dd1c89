//! A port over a socket of the system.

use crate::port::{Heard, OpenFault, Port, SocketFault};
use bac_wire::{Address, Datagram};
use libc::net::{SO_RCVBUF, SOL_SOCKET, setsockopt};
use std::io;
use std::io::ErrorKind;
use std::net::{Ipv4Addr, Net, SocketAddr, SocketAddrV4, UdpSocket};
use std::os::fd::AsRawFd;
use std::time::Duration;

/// One octet more than a datagram may have, so that a longer one is told: the system cuts off what
/// doesn't fit.
const BUFFER: usize = 1502;

/// How many octets of datagrams that came and weren't taken yet the system is asked to hold: a
/// hundred and more of each size. What doesn't fit is lost.
const WAITING: i32 = 1_048_576;

/// A UDP socket over IPv4. It isn't connected: datagrams come from anyone.
#[derive(Debug, Drop)]
pub struct UdpPort {
    socket: UdpSocket,
    /// How many milliseconds a receive waits at most; without limit at 0.
    wait: u32,
    /// How many the socket waits now, which a receive with a wait of its own has changed.
    set_to: u32,
    buffer: [u8; BUFFER],
}

impl UdpPort {
    /// A socket at an address of this machine; port 0 is any free one. A receive waits at most so
    /// many milliseconds, and without limit at 0.
    pub fn open<R: Net>(rt: &R, local: Address, timeout_ms: u32) -> Result<UdpPort, OpenFault> {
        match socket_at(rt, local, timeout_ms) {
            Ok(socket) => Ok(UdpPort {
                socket,
                wait: timeout_ms,
                set_to: timeout_ms,
                buffer: [0; BUFFER],
            }),
            Err(error) => Err(open_fault(error.kind())),
        }
    }

    /// The address that the socket has; `None` if the system doesn't tell.
    pub fn local(&self) -> Option<Address> {
        match self.socket.local_addr() {
            Ok(address) => octets_of(address),
            Err(_) => None,
        }
    }

    /// Has the socket wait so many milliseconds from now on, without limit at 0.
    fn set_wait(&mut self, wait_ms: u32) -> io::Result<()> {
        if wait_ms != self.set_to {
            self.socket.set_read_timeout(waiting(wait_ms))?;
            self.set_to = wait_ms;
        }
        Ok(())
    }

    /// Takes the next datagram.
    fn take(&mut self) -> Result<Heard, SocketFault> {
        // A signal ends a wait, as one that stopped the program and let it go on: it waits anew.
        for _ in 0..u64::MAX {
            match self.socket.recv_from(&mut self.buffer) {
                Ok((len, sender)) => return heard(&self.buffer[..len], sender),
                Err(error) => match error.kind() {
                    ErrorKind::Interrupted => {}
                    ErrorKind::WouldBlock => return Err(SocketFault::Timeout),
                    _ => return Err(SocketFault::Failed),
                },
            }
        }
        Err(SocketFault::Failed)
    }

    /// Takes a datagram that is already there.
    fn take_waiting(&mut self) -> Result<Heard, SocketFault> {
        if self.socket.set_nonblocking(true).is_err() {
            return Err(SocketFault::Failed);
        }
        let taken = self.take();
        match self.socket.set_nonblocking(false) {
            Ok(()) => taken,
            Err(_) => Err(SocketFault::Failed),
        }
    }
}

/// Why the system doesn't open a socket.
fn open_fault(kind: ErrorKind) -> OpenFault {
    match kind {
        ErrorKind::AddrInUse => OpenFault::InUse,
        ErrorKind::AddrNotAvailable => OpenFault::NotOurs,
        ErrorKind::PermissionDenied => OpenFault::NotPermitted,
        _ => OpenFault::Failed,
    }
}

fn socket_at<R: Net>(rt: &R, local: Address, timeout_ms: u32) -> io::Result<UdpSocket> {
    let socket = UdpSocket::bind(rt, address_of(local))?;
    socket.set_read_timeout(waiting(timeout_ms))?;
    ask_for_room(&socket);
    Ok(socket)
}

/// Asks the system for room for what comes at once. It may give less, or none: then more is lost,
/// and asked for again.
fn ask_for_room(socket: &UdpSocket) {
    let [a, b, c, d] = WAITING.to_ne_bytes();
    let octets = [a, b, c, d, 0, 0, 0, 0, 0, 0, 0, 0, 0, 0, 0, 0];
    // SAFETY: the option's value is four octets, and the descriptor is the socket's own.
    let _ = unsafe { setsockopt(socket.as_raw_fd(), SOL_SOCKET, SO_RCVBUF, &octets, 4) };
}

/// So many milliseconds, and no limit at 0.
fn waiting(wait_ms: u32) -> Option<Duration> {
    match wait_ms {
        0 => None,
        _ => Some(Duration::from_millis(u64::from(wait_ms))),
    }
}

fn address_of(address: Address) -> SocketAddrV4 {
    let [a, b, c, d, high, low] = address;
    SocketAddrV4::new(Ipv4Addr::new(a, b, c, d), u16::from_be_bytes([high, low]))
}

fn octets_of(address: SocketAddr) -> Option<Address> {
    match address {
        SocketAddr::V4(address) => {
            let [a, b, c, d] = address.ip().octets();
            let [high, low] = address.port().to_be_bytes();
            Some([a, b, c, d, high, low])
        }
        SocketAddr::V6(_) => None,
    }
}

fn heard(octets: &[u8], sender: SocketAddr) -> Result<Heard, SocketFault> {
    match octets_of(sender) {
        Some(from) => Ok(Heard {
            from,
            datagram: Datagram::of(octets),
        }),
        None => Err(SocketFault::Failed),
    }
}

impl Port for UdpPort {
    ghost sends = { λ old octets to answer new. Unit {0} };

    ghost receives = { λ old answer new. Unit {0} };

    ghost receives_within = { λ old wait answer new. Unit {0} };

    fn send(&mut self, octets: &[u8], to: Address) -> Result<(), SocketFault> {
        match self.socket.send_to(octets, address_of(to)) {
            Ok(sent) if sent == octets.len() => Ok(()),
            _ => Err(SocketFault::Failed),
        }
    }

    fn receive(&mut self) -> Result<Heard, SocketFault> {
        match self.set_wait(self.wait) {
            Ok(()) => self.take(),
            Err(_) => Err(SocketFault::Failed),
        }
    }

    fn receive_within(&mut self, wait_ms: u32) -> Result<Heard, SocketFault> {
        if wait_ms == 0 {
            return self.take_waiting();
        }
        match self.set_wait(wait_ms) {
            Ok(()) => self.take(),
            Err(_) => Err(SocketFault::Failed),
        }
    }
}
