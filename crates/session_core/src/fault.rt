use out_of_memory::OutOfMemory;
use route_io::WriteFault;
use thiserror::Error;

/// Why a reply wasn't sent whole.
#[derive(Clone, Copy, Debug, PartialEq, Eq, Error)]
pub enum ReplyFault {
    /// The sink took a part of it from the front.
    #[error("the reply was cut")]
    Out(WriteFault),
    /// Memory ran out before its first byte.
    #[error("out of memory")]
    OutOfMemory(OutOfMemory),
}

impl From<OutOfMemory> for ReplyFault {
    ghost use Rattle.std.specs.Prelude.{◌≡◌};
    ghost use Rattle.session_core.specs.declared.fault.ReplyFault.TheVariants as fault;

    ghost from_gives = { λ want e. e ≡ fault.OutOfMemory want };

    fn from(want: OutOfMemory) -> ReplyFault {
        ReplyFault::OutOfMemory(want)
    }
}

impl From<WriteFault> for ReplyFault {
    ghost use Rattle.std.specs.Prelude.{◌≡◌};
    ghost use Rattle.session_core.specs.declared.fault.ReplyFault.TheVariants as fault;

    ghost from_gives = { λ cut e. e ≡ fault.Out cut };

    fn from(cut: WriteFault) -> ReplyFault {
        ReplyFault::Out(cut)
    }
}
