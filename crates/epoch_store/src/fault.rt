use out_of_memory::OutOfMemory;

/// Why an arc isn't given other weights. The first that holds is told.
#[derive(Clone, Copy, Debug, PartialEq, Eq)]
pub enum SetFault {
    /// There is no arc of this number.
    Arc,
    /// All weights are 0.
    Zero,
    /// As many changes are pending as may be: 65,536.
    Full,
    OutOfMemory(OutOfMemory),
}

/// Why an arc isn't shut. The first that holds is told.
#[derive(Clone, Copy, Debug, PartialEq, Eq)]
pub enum ShutFault {
    /// There is no arc of this number.
    Arc,
    /// As many changes are pending as may be: 65,536.
    Full,
    OutOfMemory(OutOfMemory),
}

/// Why no epoch is published.
#[derive(Clone, Copy, Debug, PartialEq, Eq)]
pub enum PublishFault {
    /// The current epoch has the greatest number, 2^32 - 1.
    LastEpoch,
    OutOfMemory(OutOfMemory),
}

impl From<OutOfMemory> for PublishFault {
    ghost use Rattle.std.specs.Prelude.{◌≡◌};
    ghost use Rattle.epoch_store.specs.declared.fault.PublishFault.TheVariants as fault;

    ghost from_gives = { λ want e. e ≡ fault.OutOfMemory want };

    fn from(want: OutOfMemory) -> PublishFault {
        PublishFault::OutOfMemory(want)
    }
}
