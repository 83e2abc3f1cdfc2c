//! Laws of queries over nodes.
ghost use Rattle.std.specs.Prelude.{◌+◌, ℕ};
ghost use Rattle.hq_link.specs.Link.{Told};
ghost use Rattle.hq_pump.specs.Safe.{AreEarlier, Grows, IsOwn};

/// A link that carries datagrams of earlier exchanges alone, and then those of an exchange, carries what is earlier than the
/// next motion of the same query. So each motion of a query may use the link behind the ones before it, and none takes
/// a datagram that was sent for another or for an earlier query.
pub fn motions_follow_one_another()
    ensures { (query motion : ℕ) (old new : Told) → AreEarlier query motion old → Grows old new (IsOwn query motion) → AreEarlier query (motion + 1) new }
{}
