//! A link over two sockets.
ghost use Rattle.std.specs.Prelude.{◌≡◌, ◌≤◌, length, take, IfOk};
ghost use Rattle.hq_link.specs.Arrival.{IsArrival};

use crate::counts::Counts;
use crate::{Got, Link, LinkFault, read};
use hq_value::{DoorFault, Failed};
use std::io;
use std::net::{Net, UdpSocket};
use std::time::Duration;

/// The longest datagram, and one byte by which a longer one shows.
const MOST: usize = 1224;

/// How many arrivals that are no datagrams one call skips at most.
const ARRIVALS: usize = 64;

/// Two sockets on the loopback interface, the one sending to the other. It tells its counts alone.
#[derive(Drop)]
pub struct UdpPair {
    from: UdpSocket,
    to: UdpSocket,
    counts: Counts,
}

/// What a socket gave.
enum Arrival {
    Datagram(usize),
    Other,
    Nothing,
    Failed,
}

impl UdpPair {
    /// Two new sockets. `Failed` comes where the machine gave none.
    pub fn open<R: Net>(rt: &R) -> Result<UdpPair, DoorFault>
        ensures { IfOk result (λ pair. (⟦<UdpPair as Link>⟧.state pair).troubles ≡ 0) }
    {
        match UdpPair::sockets(rt) {
            Ok((from, to)) => Ok(UdpPair {
                from,
                to,
                counts: Counts {
                    acks: 0,
                    others: 0,
                    troubles: 0,
                    given: 0,
                    faults: 0,
                },
            }),
            Err(_) => Err(DoorFault::Failed),
        }
    }

    fn sockets<R: Net>(rt: &R) -> io::Result<(UdpSocket, UdpSocket)> {
        let from = UdpSocket::bind(rt, "127.0.0.1:0")?;
        let to = UdpSocket::bind(rt, "127.0.0.1:0")?;
        from.connect(to.local_addr()?)?;
        to.connect(from.local_addr()?)?;
        to.set_read_timeout(Some(Duration::from_millis(50)))?;
        Ok((from, to))
    }
}

// What comes next at a socket.
fn receive(socket: &UdpSocket, buffer: &mut [u8]) -> Arrival
    requires { length buffer.old ≡ 1225 }
    ensures { IsArrival result }
{
    match socket.recv(buffer) {
        Ok(len) => {
            if len <= MOST && read(&buffer[..len]).is_some() {
                Arrival::Datagram(len)
            } else {
                Arrival::Other
            }
        }
        Err(error) => match error.kind() {
            io::ErrorKind::WouldBlock | io::ErrorKind::TimedOut => Arrival::Nothing,
            _ => Arrival::Failed,
        },
    }
}

// Copies a datagram from the front of the buffer to that of `into`.
fn give(buffer: &[u8], len: usize, into: &mut [u8])
    requires most { len ≤ 1224 }
    requires long { length buffer.now ≡ 1225 }
    requires room { 1224 ≤ length into.old }
    ensures { take len into.new ≡ take len buffer.now }
{
    let (front, _) = into.split_at_mut(len);
    front.copy_from_slice(&buffer[..len]);
}

impl Link for UdpPair {
    ghost use Rattle.hq_link.specs.Pair.{pair_state};
    ghost use Rattle.hq_link.specs.Link.{IsSent, IsNext};

    ghost state = { λ pair. pair_state pair.counts };

    fn send(&mut self, bytes: &[u8]) -> Result<(), LinkFault> {
        if !self.counts.has_room() {
            return Err(LinkFault::NoMemory);
        }
        match self.from.send(bytes) {
            Ok(len) if len == bytes.len() => {
                self.counts.sent(bytes);
                Ok(())
            }
            _ => {
                self.counts.fail();
                Err(LinkFault::Failed)
            }
        }
    }

    fn next(&mut self, into: &mut [u8]) -> Result<Got, Failed> {
        let mut buffer = [0; MOST + 1];
        for _tried in 0..ARRIVALS {
            match receive(&self.to, &mut buffer) {
                Arrival::Datagram(len) => {
                    give(&buffer, len, into);
                    self.counts.came(&buffer[..len]);
                    return Ok(Got::Bytes(len));
                }
                Arrival::Other => self.counts.trouble(),
                Arrival::Nothing => {
                    self.counts.trouble();
                    return Ok(Got::Quiet);
                }
                Arrival::Failed => {
                    self.counts.fail();
                    return Err(Failed);
                }
            }
        }
        Ok(Got::Quiet)
    }

    fn troubles(&self) -> u64 {
        self.counts.troubles
    }

    fn given(&self) -> u64 {
        self.counts.given
    }

    fn faults(&self) -> u64 {
        self.counts.faults
    }

    ghost lawful = { λ pair. record { counted = tt; told = tt } };
}
