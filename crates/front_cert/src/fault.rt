ghost use Rattle.std.specs.Prelude.{◌≡◌};
ghost use Rattle.front_cert.specs.Reads.{known_as};

use cert_rules::Rule;
use line_text::LineFault;
use out_of_memory::OutOfMemory;
use thiserror::Error;

/// Why a text isn't a certificate that shows an answer.
#[derive(Clone, Copy, Debug, PartialEq, Eq, Error)]
pub enum CertFault {
    /// The first faulty line, or the place behind the last one; lines are numbered from 1.
    #[error("line {line} is faulty")]
    Line { line: u64 },
    /// The first label at which a rule fails, numbered from 1, or 0 for the list as a whole; and the least such rule.
    #[error("a rule fails at label {label}")]
    Rule { rule: Rule, label: u32 },
    #[error("the source failed")]
    Read,
    #[error("out of memory")]
    OutOfMemory(OutOfMemory),
}

impl CertFault {
    /// What a reader of lines found at this line.
    pub(crate) fn at_line(fault: LineFault, line: u64) -> CertFault
        ensures { result ≡ known_as fault line }
    {
        match fault {
            LineFault::TooLong | LineFault::Total => CertFault::Line { line },
            LineFault::Read => CertFault::Read,
        }
    }
}

impl From<OutOfMemory> for CertFault {
    ghost use Rattle.std.specs.Prelude.{◌≡◌};
    ghost use Rattle.front_cert.specs.declared.fault.CertFault.TheVariants as fault;

    ghost from_gives = { λ want e. e ≡ fault.OutOfMemory want };

    fn from(want: OutOfMemory) -> CertFault {
        CertFault::OutOfMemory(want)
    }
}
