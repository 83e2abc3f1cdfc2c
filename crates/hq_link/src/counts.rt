//! What a link over sockets counts.
ghost use Rattle.std.specs.Prelude.{◌≡◌, ◌+◌, ◌<◌, ◌≤◌, ◌^◌, ◌↔◌, true};
ghost use Rattle.hq_value.specs.Causes.{Rose, raised};
ghost use Rattle.hq_link.specs.Link.{is_ack, ack_count, other_count};
ghost use Rattle.hq_link.specs.Pair.{CameCounted};

/// How many Acks and others are flying, and how often what happened.
#[derive(Clone, Copy, Debug, PartialEq, Eq)]
pub(crate) struct Counts {
    pub(crate) acks: u64,
    pub(crate) others: u64,
    pub(crate) troubles: u64,
    pub(crate) given: u64,
    pub(crate) faults: u64,
}

/// Whether a datagram is an Ack.
fn is_ack(bytes: &[u8]) -> bool
    ensures { result ≡ is_ack bytes.now }
{
    match bytes {
        [] => false,
        [first, ..] => *first == 3,
    }
}

impl Counts {
    /// Whether one more of each sort can be counted.
    pub(crate) fn has_room(&self) -> bool
        ensures { result ≡ true → (self.now.acks + 1 < 2 ^ 64) × (self.now.others + 1 < 2 ^ 64) }
    {
        self.acks < u64::MAX && self.others < u64::MAX
    }

    /// A datagram is flying.
    pub(crate) fn sent(&mut self, bytes: &[u8])
        requires acks { self.old.acks + 1 < 2 ^ 64 }
        requires others { self.old.others + 1 < 2 ^ 64 }
        ensures { self.new ≡ record self.old { acks = self.old.acks + ack_count bytes.now; others = self.old.others + other_count bytes.now } }
    {
        if is_ack(bytes) {
            self.acks += 1;
        } else {
            self.others += 1;
        }
    }

    /// A datagram came. One beyond those of its sort is a trouble.
    pub(crate) fn came(&mut self, bytes: &[u8])
        ensures { CameCounted self.old bytes.now self.new }
    {
        self.given = self.given.saturating_add(1);
        if is_ack(bytes) {
            if self.acks > 0 {
                self.acks -= 1;
            } else {
                self.troubles = self.troubles.saturating_add(1);
            }
        } else if self.others > 0 {
            self.others -= 1;
        } else {
            self.troubles = self.troubles.saturating_add(1);
        }
    }

    pub(crate) fn trouble(&mut self)
        ensures troubled { self.new ≡ record self.old { troubles = raised self.old.troubles 1 } }
        ensures later { self.old.troubles ≤ self.new.troubles }
    {
        self.troubles = self.troubles.saturating_add(1);
    }

    pub(crate) fn fail(&mut self)
        ensures failed { self.new ≡ record self.old { faults = raised self.old.faults 1 } }
        ensures later { self.old.faults ≤ self.new.faults }
    {
        self.faults = self.faults.saturating_add(1);
    }
}
