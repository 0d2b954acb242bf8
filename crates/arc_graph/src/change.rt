use cost_vector::{ArcNo, Weight};

/// That an arc gets this vector, or that it is shut where there is none.
#[derive(Clone, Copy, Debug, PartialEq, Eq)]
pub struct Change {
    pub arc: ArcNo,
    pub weight: Option<Weight>,
}
