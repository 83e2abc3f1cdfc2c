//! The benches of the nodes, and what goes wrong on them.
ghost use Rattle.std.specs.Prelude.{◌≡◌, ℕ, All, [], IfOk};
ghost use Rattle.hq_querytests.specs.Benches.{HasNewLink, AreReady};

use crate::stores::FailingStore;
use hq_detect::{Bench, Benches, Host, ListHost};
use hq_sim::{Act, SimLink};
use hq_untold::Reads;
use std::alloc::Global;
use std::test::Fail;

/// The benches of all nodes, whose hosts are of that type.
pub(crate) type TestBenches<H> = Benches<FailingStore, H, SimLink>;

/// What a link does.
#[derive(Clone, Copy)]
pub(crate) enum Carries {
    /// It gives all in order.
    All,
    /// It loses the first `copies` copies of the Data of that number.
    Loses { seq: u64, copies: u32 },
    /// Its first call of `send` fails.
    FailsToSend,
}

/// What the reads of all stores give, and what goes wrong on one node: the read of its store and the check of its host
/// that fail, counted from 1, and what its link does.
#[derive(Clone, Copy)]
pub(crate) struct Wrong {
    pub(crate) reads: Reads,
    pub(crate) store_node: u8,
    pub(crate) read: u64,
    pub(crate) host_node: u8,
    pub(crate) check: u64,
    pub(crate) link_node: u8,
    pub(crate) carries: Carries,
}

impl Wrong {
    /// Nothing goes wrong.
    pub(crate) const NOTHING: Wrong = Wrong {
        reads: Reads::Written,
        store_node: 0,
        read: 0,
        host_node: 0,
        check: 0,
        link_node: 0,
        carries: Carries::All,
    };

    fn store(&self, alloc: Global, node: u8) -> FailingStore {
        let fails = if node == self.store_node {
            self.read
        } else {
            0
        };
        FailingStore::new(alloc, self.reads, fails)
    }

    fn host(&self, alloc: Global, node: u8) -> Result<ListHost, Fail> {
        let mut fails = Vec::new(alloc);
        if node == self.host_node {
            fails.push(self.check)?;
        }
        Ok(ListHost::new(fails))
    }

    // What the link of a node does.
    fn carries(&self, node: u8) -> Carries {
        if node == self.link_node {
            self.carries
        } else {
            Carries::All
        }
    }
}

// A link that does this.
fn link(alloc: Global, carries: Carries) -> Result<SimLink, Fail>
    ensures { IfOk result (λ link. link.sent ≡ []) }
{
    let mut acts = Vec::new(alloc);
    match carries {
        Carries::All => Ok(SimLink::scripted(alloc, acts)),
        Carries::Loses { seq, copies } => Ok(SimLink::dropping(alloc, seq, copies)),
        Carries::FailsToSend => {
            acts.push(Act::FailSend)?;
            Ok(SimLink::scripted(alloc, acts))
        }
    }
}

fn bench<H>(
    alloc: Global,
    node: u8,
    host: H,
    wrong: Wrong,
) -> Result<Bench<FailingStore, H, SimLink>, Fail>
where
    H: Host,
    ensures { IfOk result HasNewLink }
{
    let store = wrong.store(alloc, node);
    let link = link(alloc, wrong.carries(node))?;
    Ok(Bench { store, host, link })
}

/// A host for each of so many nodes.
pub(crate) fn list_hosts(alloc: Global, nodes: u8, wrong: Wrong) -> Result<Vec<ListHost>, Fail> {
    let mut hosts = Vec::new(alloc);
    for node in 0..nodes {
        hosts.push(wrong.host(alloc, node)?)?;
    }
    Ok(hosts)
}

// A bench for each host. Nothing was sent over their links.
fn new_benches<H>(alloc: Global, hosts: Vec<H>, wrong: Wrong) -> Result<TestBenches<H>, Fail>
where
    H: Host,
    ensures { IfOk result (λ benches. All HasNewLink benches.items) }
{
    let mut benches = Vec::new(alloc);
    let mut node = 0u8;
    for host in hosts {
        let bench = bench(alloc, node, host, wrong)?;
        benches.push(bench)?;
        node = node.saturating_add(1);
    }
    Ok(benches)
}

/// A bench for each host. They are ready for any query.
pub(crate) fn benches_with<H>(
    alloc: Global,
    hosts: Vec<H>,
    wrong: Wrong,
) -> Result<TestBenches<H>, Fail>
where
    H: Host,
    ensures { (query : ℕ) → IfOk result (λ benches. AreReady query benches.items) }
{
    new_benches(alloc, hosts, wrong)
}
