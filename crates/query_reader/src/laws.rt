//! What holds of every text, as the contract of a function that does nothing.
ghost use Rattle.query_reader.specs.Laws.{WeightsNeverFail};

/// Of the kinds of faults one is never told of a file of pairs, `WeightRange`.
pub fn weights_never_fail()
    ensures { WeightsNeverFail }
{}
