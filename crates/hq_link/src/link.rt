//! What carries datagrams between nodes.
ghost use Rattle.std.specs.Prelude.{◌≡◌, ◌≤◌, length};
ghost use Rattle.hq_link.specs.Link.{LinkState, IsLawful, IsSent, IsNext};

use hq_value::Failed;

/// Why nothing was sent.
#[derive(Clone, Copy, Debug, PartialEq, Eq)]
pub enum LinkFault {
    Failed,
    NoMemory,
}

/// What came: a datagram of so many bytes, or nothing.
#[derive(Clone, Copy, Debug, PartialEq, Eq)]
pub enum Got {
    Bytes(usize),
    Quiet,
}

/// What carries datagrams. It may lose, repeat and reorder them, and then it counts a trouble. A call answers
/// `Failed` only where it raised the count of faults. The counts never fall, and stay at their type's end.
pub trait Link: Drop {
    /// What can still arrive, what is flying, the counts, and what is promised.
    ghost state: { Self → LinkState };

    /// Sends a datagram of 24 to 1,224 bytes. What is refused changes nothing but the counts.
    fn send(&mut self, bytes: &[u8]) -> Result<(), LinkFault>
        requires least { 24 ≤ length bytes.now }
        requires most { length bytes.now ≤ 1224 }
        ensures { IsSent (state self.old) bytes.now result (state self.new) };

    /// Puts the next datagram at the front of `into`, which holds 1,224 bytes. It is the head of what is flying,
    /// or a trouble is counted. `Quiet` is one too.
    fn next(&mut self, into: &mut [u8]) -> Result<Got, Failed>
        requires { 1224 ≤ length into.old }
        ensures { IsNext (state self.old) result into.new (state self.new) };

    /// How often a datagram was lost, came again or out of its turn, or nothing came.
    fn troubles(&self) -> u64
        ensures { result ≡ (state self.now).troubles };

    /// How many datagrams came.
    fn given(&self) -> u64
        ensures { result ≡ (state self.now).given };

    /// How often a call has failed.
    fn faults(&self) -> u64
        ensures { result ≡ (state self.now).faults };

    ghost lawful: { (s : Self) → IsLawful (state s) };
}
