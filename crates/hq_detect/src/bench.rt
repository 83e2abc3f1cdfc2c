//! What a node runs with.

/// A node's client of the store, its host and its link.
#[derive(Debug, Drop)]
pub struct Bench<S, H, L> {
    pub store: S,
    pub host: H,
    pub link: L,
}

/// The benches of the nodes, by their numbers.
pub type Benches<S, H, L> = Vec<Bench<S, H, L>>;
