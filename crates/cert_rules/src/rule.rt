ghost use Rattle.std.specs.Prelude.{◌≡◌};
ghost use Rattle.cert_rules.specs.Rules.{rule_number};

/// A rule for the labels of a certificate.
#[derive(Clone, Copy, Debug, PartialEq, Eq)]
pub enum Rule {
    /// The start at cost zero is listed without an arc, and no other label is.
    Start = 1,
    /// A label's arc leads to it from a listed label.
    Arrival = 2,
    /// Each arc that leads on comes to a node with a cost at most as great, or is dominated at the target.
    Departure = 3,
    /// A label's arc is the least by which its cost comes.
    LeastArc = 4,
    /// No cost of its node dominates a label's.
    Undominated = 5,
}

impl Rule {
    /// The number of the rule, 1 to 5.
    pub fn number(self) -> u32
        ensures { result ≡ rule_number self }
    {
        self as u32
    }
}
