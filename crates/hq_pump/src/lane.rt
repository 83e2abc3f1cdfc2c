//! The two ends of a stream.
ghost use Rattle.std.specs.Prelude.{◌≡◌};
ghost use Rattle.hq_pump.specs.Exchange.{is_done, is_from, is_open, is_sent};

use hq_recv::Receiver;
use hq_send::Sender;

/// The two ends of one stream.
#[derive(Drop)]
pub(crate) struct Lane {
    pub(crate) sender: Sender,
    pub(crate) receiver: Receiver,
}

impl Lane {
    /// Whether the end of the stream was acknowledged.
    pub(crate) fn is_sent(&self) -> bool
        ensures { result ≡ is_sent self.now }
    {
        self.sender.finished()
    }

    /// Whether both ends are finished.
    pub(crate) fn is_done(&self) -> bool
        ensures { result ≡ is_done self.now }
    {
        self.sender.finished() && self.receiver.finished()
    }

    /// Whether one of them isn't finished.
    pub(crate) fn is_open(&self) -> bool
        ensures { result ≡ is_open self.now }
    {
        !self.is_done()
    }

    /// Whether its stream is from that node.
    pub(crate) fn is_from(&self, from: u8) -> bool
        ensures { result ≡ is_from from self.now }
    {
        self.sender.route().from == from
    }
}
