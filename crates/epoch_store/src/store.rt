use std::marker::Brand;

/// Which store it is.
pub trait Store {
    ghost use Rattle.epoch_store.specs.Origin.{Origin};

    ghost origin: { Origin };
}

impl Store for Brand {
    ghost use Rattle.std.specs.Prelude.{[]};

    ghost origin = { record {
      chronicle = record { number = 0; log_name = 0; cells_name = 0 };
      first = 0;
      base = record { criteria = 0; states = [] };
    } };
}
