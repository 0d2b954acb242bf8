use crate::history::History;

/// What a reader knows of the epochs by its looks at them, as it stands in proofs. No value of it is made.
pub struct Sight {
    /// How many looks it has made.
    pub looks: u64,
    /// The history that the last one found.
    pub seen: History,
    /// Whether that look was made in the knowledge that no further epoch will come.
    pub last: bool,
}

/// What a reader knows of the end mark by its looks for it, as it stands in proofs. No value of it is made.
pub struct MarkSight {
    /// How many looks it has made.
    pub looks: u64,
    /// Whether the last one found the mark set.
    pub closed: bool,
}
