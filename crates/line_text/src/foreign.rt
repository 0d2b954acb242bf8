//! Whether a line is of another protocol.
ghost use Rattle.std.specs.Prelude.{◌≡◌, ◌++◌, ℕ, List, []};
ghost use Rattle.line_text.specs.Foreign.{IsSkipped, Sees, is_foreign};

use crate::http::LastField;

/// What is seen of the bytes of a line, which may come in any pieces.
#[derive(Clone, Copy)]
pub(crate) struct LineSeen {
    holds_zero: bool,
    last: LastField,
}

impl LineSeen {
    /// Nothing of a line, or what was skipped of it, as it is seen with these bytes behind it.
    pub(crate) fn behind(skipped: Option<LineSeen>, bytes: &[u8]) -> LineSeen
        ensures { (front : List ℕ) → IsSkipped skipped front → Sees result (front ++ bytes.now) }
    {
        match skipped {
            Some(seen) => seen.with(bytes),
            None => LineSeen::none().with(bytes),
        }
    }

    /// No bytes.
    fn none() -> LineSeen
        ensures { Sees result [] }
    {
        LineSeen {
            holds_zero: false,
            last: LastField::none(),
        }
    }

    /// With more bytes.
    fn with(self, bytes: &[u8]) -> LineSeen
        ensures { (text : List ℕ) → Sees self text → Sees result (text ++ bytes.now) }
    {
        LineSeen {
            holds_zero: self.holds_zero || bytes.contains(&0),
            last: self.last.behind(bytes),
        }
    }

    /// Whether a line of these bytes is of another protocol.
    pub(crate) fn is_foreign(self) -> bool
        ensures { (line : List ℕ) → Sees self line → result ≡ is_foreign line }
    {
        self.holds_zero || self.last.is_http()
    }
}
