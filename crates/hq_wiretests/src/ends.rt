//! The two ends of a stream.
ghost use Rattle.std.specs.Prelude.{◌<◌};

use crate::grams::packet;
use hq_cases as cases;
use hq_link::{Route, write};
use hq_recv::Receiver;
use hq_send::Sender;
use hq_value::NoMemory;
use std::alloc::Global;
use std::test::Fail;

/// How many bytes a piece has at most.
const PIECE: usize = 1200;

/// The longest datagram.
const MOST: usize = 1224;

// `FROM TO QUERY MOTION`.
fn route(text: &str) -> Route
    ensures from { result.from < 16 }
    ensures to { result.to < 16 }
{
    let (from, rest) = cases::counted(text);
    let (to, rest) = cases::counted(rest);
    let (query, rest) = cases::counted(rest);
    let motion = cases::number(rest);
    Route {
        from: (from % 16) as u8,
        to: (to % 16) as u8,
        query: query as u64,
        motion: motion.min(65_535) as u16,
    }
}

fn receiver(alloc: Global, text: &str) -> Result<Receiver, NoMemory> {
    let route = route(text);
    Receiver::new(alloc, route.from, route.to, route.query, route.motion)
}

// `COUNT FROM TO QUERY MOTION`: the sender of so many bytes.
fn sender(alloc: Global, text: &str) -> Result<Sender, Fail> {
    let (count, rest) = cases::counted(text);
    let mut bytes = Vec::new(alloc);
    for _ in 0..count {
        bytes.push(b'x')?;
    }
    let route = route(rest);
    Ok(Sender::new(route.from, route.to, route.query, route.motion, bytes))
}

/// A receiver, the route of the datagrams that come to it, and a sender.
#[derive(Drop)]
struct Ends {
    alloc: Global,
    route: Route,
    receiver: Receiver,
    sender: Sender,
}

impl Ends {
    fn new(alloc: Global) -> Result<Ends, Fail> {
        Ok(Ends {
            alloc,
            route: route(""),
            receiver: receiver(alloc, "")?,
            sender: sender(alloc, "")?,
        })
    }

    fn accept(&mut self, rt: HostRuntime, bytes: &[u8]) -> Result<(), Fail> {
        match self.receiver.accept(bytes) {
            Ok(took) => {
                let wanted = self.receiver.on_probe();
                let ended = self.receiver.finished();
                println!(rt; "  {took:?}, wants {wanted}, finished {ended}")?;
            }
            Err(NoMemory) => println!(rt; "  no memory")?,
        }
        Ok(())
    }

    // A datagram of the route comes: `NUMBER TEXT`.
    fn comes(&mut self, rt: HostRuntime, word: &str, rest: &str) -> Result<(), Fail> {
        let (n, text) = cases::counted(rest);
        let mut bytes = Vec::new(self.alloc);
        cases::add(&mut bytes, text)?;
        bytes.truncate(PIECE);
        let mut into = [0; MOST];
        let len = write(packet(word), self.route, n as u64, &bytes, &mut into);
        self.accept(rt, &into[..len])
    }

    // All numbers that are due.
    fn due(&mut self, rt: HostRuntime) -> Result<(), Fail> {
        print!(rt; "  due")?;
        for _ in 0..32 {
            match self.sender.due() {
                Some(n) => print!(rt; " {n}")?,
                None => {
                    println!(rt; ", lowest {}", self.sender.lowest())?;
                    return Ok(());
                }
            }
        }
        Ok(())
    }

    fn heard(&mut self, rt: HostRuntime, n: u64) -> Result<(), Fail> {
        let new = self.sender.on_ack(n);
        let sent = self.sender.finished();
        println!(rt; "  new {new}, finished {sent}")?;
        Ok(())
    }

    // A step, or none where the word is of no step.
    fn step(&mut self, rt: HostRuntime, word: &str, rest: &str) -> Result<bool, Fail> {
        match word {
            "receiver" => self.receiver = receiver(self.alloc, rest)?,
            "route" => self.route = route(rest),
            "data" | "eos" | "ack" | "probe" => self.comes(rt, word, rest)?,
            "bytes" => {
                let mut bytes = Vec::new(self.alloc);
                cases::add(&mut bytes, rest)?;
                self.accept(rt, &bytes)?;
            }
            "sender" => self.sender = sender(self.alloc, rest)?,
            "due" => self.due(rt)?,
            "heard" => self.heard(rt, cases::number(rest) as u64)?,
            "quiet" => self.sender.on_quiet(),
            _ => return Ok(false),
        }
        Ok(true)
    }

    // The whole stream, where its end was taken.
    fn finish(self, rt: HostRuntime) -> Result<(), Fail> {
        let Ends {
            alloc,
            receiver,
            ..
        } = self;
        if receiver.finished() {
            let bytes = receiver.stream();
            let bytes = cases::shown(alloc, &bytes)?;
            println!(rt; "  stream {bytes}")?;
        }
        Ok(())
    }
}

/// Shows the cases of `ends.txt`.
pub fn run(rt: HostRuntime) -> Result<(), Fail> {
    let text = cases::text_of(rt, "ends.txt")?;
    let mut ends = Ends::new(rt.alloc())?;
    for line in text.as_str().lines() {
        match cases::line_of(line) {
            None => {}
            Some(("stream", _)) => {
                ends.finish(rt)?;
                ends = Ends::new(rt.alloc())?;
            }
            Some((word, rest)) => {
                if !ends.step(rt, word, rest)? {
                    println!(rt; "{word} {rest}")?;
                }
            }
        }
    }
    Ok(())
}
