/// Asks what was found, whichever of these it is.
macro_rules! ask {
    ($whole:expr, [$($variant:path),*], $found:ident => $answer:expr) => {
        match $whole {
            $($variant($found) => $answer,)*
        }
    };
}

pub(crate) use ask;
