use arc_graph::Graph;
use std::alloc::Global;
use work_claim::Workers;

/// How each link is served.
#[derive(Clone, Copy, Debug, PartialEq, Eq)]
pub struct LinkPolicy {
    /// The most bytes that are taken from it.
    pub bytes: u64,
    /// Whether a line of another protocol ends it, one whose last field begins with `HTTP/` or that holds a byte 0: then neither
    /// that line nor what stands behind it is replied to, so no web page can have a line obeyed.
    pub guarded: bool,
}

/// What links are served by: the workers who share each search, the graph, the budget of each query, and how each link is
/// served.
#[derive(Drop)]
pub struct ServeContext<'c, R, G> {
    pub workers: &'c Workers<'c, R, G>,
    pub alloc: Global,
    pub graph: &'c Graph,
    pub budget: u32,
    pub policy: LinkPolicy,
}
