//! Whether a line is one of HTTP, by its last field.
ghost use Rattle.std.specs.Prelude.{◌≡◌, ◌++◌, ◌∷◌, ℕ, List, [], false};
ghost use Rattle.line_text.specs.Fields.{is_blank};
ghost use Rattle.line_text.specs.Http.{is_http};
ghost use Rattle.line_text.specs.LastFields.{Shows, begins, ends_named, goes_on, goes_on_in_name, is_named};

use crate::fields::is_blank;

/// The last field of the bytes of a line, which may come in any pieces.
#[derive(Clone, Copy, Debug, PartialEq, Eq)]
pub(crate) enum LastField {
    /// It has ended, if there was one, and began with `HTTP/` or not.
    Ended { named: bool },
    /// It goes on, and is so many bytes of `HTTP/` so far, not all.
    Begun { bytes: u8 },
    /// It goes on, and begins with `HTTP/`.
    Named,
    /// It is a CR, and the one before it began with `HTTP/`.
    Cr,
    /// It goes on, and is none of these.
    Other,
}

impl LastField {
    /// That of no bytes.
    pub(crate) fn none() -> LastField
        ensures { Shows result [] }
    {
        LastField::Ended { named: false }
    }

    /// That of more bytes.
    pub(crate) fn behind(self, bytes: &[u8]) -> LastField
        ensures { (text : List ℕ) → Shows self text → Shows result (text ++ bytes.now) }
    {
        let mut last = self;
        for byte in bytes {
            last = last.behind_one(*byte);
        }
        last
    }

    /// That of one byte more.
    fn behind_one(self, byte: u8) -> LastField
        ensures { (text : List ℕ) → Shows self text → Shows result (text ++ byte ∷ []) }
    {
        if is_blank(byte) {
            LastField::Ended {
                named: self.is_named(),
            }
        } else {
            self.go_on(byte)
        }
    }

    /// The same, where the byte is no blank.
    fn go_on(self, byte: u8) -> LastField
        ensures { result ≡ goes_on self byte }
    {
        match self {
            LastField::Ended { named } => LastField::begin(named, byte),
            LastField::Begun { bytes } => LastField::go_on_in_name(bytes, byte),
            LastField::Named => LastField::Named,
            LastField::Cr | LastField::Other => LastField::Other,
        }
    }

    /// One that begins with this byte.
    fn begin(named: bool, byte: u8) -> LastField
        ensures { result ≡ begins named byte }
    {
        if byte == b'H' {
            LastField::Begun { bytes: 1 }
        } else if named && byte == b'\r' {
            LastField::Cr
        } else {
            LastField::Other
        }
    }

    /// One with this byte behind so many of `HTTP/`.
    #[tactic(auto, using(std::proofs::lemmas::Bool::Decides::nat_tests))]
    fn go_on_in_name(bytes: u8, byte: u8) -> LastField
        ensures { result ≡ goes_on_in_name bytes byte }
    {
        match (bytes, byte) {
            (1, b'T') => LastField::Begun { bytes: 2 },
            (2, b'T') => LastField::Begun { bytes: 3 },
            (3, b'P') => LastField::Begun { bytes: 4 },
            (4, b'/') => LastField::Named,
            _ => LastField::Other,
        }
    }

    /// Whether it begins with `HTTP/`, where a blank comes.
    fn is_named(self) -> bool
        ensures { result ≡ is_named self }
    {
        matches!(self, LastField::Ended { named: true } | LastField::Named)
    }

    /// The same where the line ends, of which one CR doesn't count.
    fn ends_named(self) -> bool
        ensures { result ≡ ends_named self }
    {
        self.is_named() || self == LastField::Cr
    }

    /// Whether a line of these bytes is one of HTTP.
    pub(crate) fn is_http(self) -> bool
        ensures { (line : List ℕ) → Shows self line → result ≡ is_http line }
    {
        self.ends_named()
    }
}
