//! A datagram that a link in memory holds.
ghost use Rattle.std.specs.Prelude.{◌≡◌, ◌≤◌, length, take, IfOk};

use bytes::Bytes;
use hq_value::NoMemory;
use std::alloc::Global;
use std::marker::Model;

/// The bytes of a datagram, at most 1,224, which copies share.
#[derive(Drop)]
pub(crate) struct Held {
    bytes: Bytes,
}

impl Model for Held {
    ghost use Rattle.std.specs.Prelude.{List, ℕ, ◌≤◌, length};

    ghost Value = { List ℕ };

    ghost view = { λ h. h.bytes };

    ghost invariant = { λ h. length h.bytes ≤ 1224 };
}

impl Held {
    pub(crate) fn new(alloc: Global, bytes: &[u8]) -> Result<Held, NoMemory>
        requires { length bytes.now ≤ 1224 }
        ensures { IfOk result (λ held. held ≡ bytes.now) }
    {
        let bytes = Bytes::copy_from_slice(alloc, bytes)?;
        Ok(Held { bytes })
    }

    /// The same datagram.
    pub(crate) fn copy(&self) -> Result<Held, NoMemory>
        ensures { IfOk result (λ held. held ≡ self.now) }
    {
        let bytes = self.bytes.clone()?;
        Ok(Held { bytes })
    }

    /// Its bytes.
    pub(crate) fn as_slice(&self) -> &[u8]
        ensures { result.now ≡ self.now }
    {
        self.bytes.as_slice()
    }

    /// Puts it at the front of `into`, and says how many bytes it has.
    pub(crate) fn put(&self, into: &mut [u8]) -> usize
        requires { 1224 ≤ length into.old }
        ensures short { result ≤ 1224 }
        ensures put { take result into.new ≡ self.now }
    {
        let bytes = self.bytes.as_slice();
        let len = bytes.len();
        let (front, _) = into.split_at_mut(len);
        front.copy_from_slice(bytes);
        len
    }
}
