/// The most nodes of a network.
pub const MAX_NODES: u32 = 1 << 23;

/// The most arcs of a network.
pub const MAX_ARCS: u32 = 1 << 24;

/// The greatest budget of a query, in labels.
pub const MAX_BUDGET: u32 = 50_000_000;

/// The greatest number of an epoch.
pub const MAX_EPOCH: u32 = u32::MAX;
