ghost use Rattle.std.specs.Prelude.{◌≡◌, ◌+◌, ◌≤◌, ◌^◌, IfErr, IfSome};
ghost use Rattle.route_io.specs.Sources.{ReadsFrom};
ghost use Rattle.line_text.specs.Reading.{max_line};
ghost use Rattle.line_text.specs.Texts.{TakesAtMost};
ghost use Rattle.gr_reader.specs.Reader.{IsComplete, IsSound, file_failed};
ghost use Rattle.query_reader.specs.Answers.{BlamesNoWeight, listed};
ghost use Rattle.query_reader.specs.Grammar.{IsPairs, pairs};

use crate::pair_list::PairList;
use crate::pairs::{Pair, PairFiles};
use gr_reader::{FileFault, read_records};
use line_text::LineLimits;
use route_io::Source;
use std::alloc::Global;

/// Reads a whole file of pairs.
pub fn read_p2p<S: Source>(
    alloc: Global,
    source: &mut S,
    limits: LineLimits,
) -> Result<Vec<Pair>, FileFault>
    requires some { 1 ≤ limits.line }
    requires line { limits.line ≤ max_line }
    requires file { limits.total ≤ 2 ^ 63 }

    // Where the source tells its bytes, pairs are answered exactly for their text, and a fault of a line exactly
    // where it is the first, but for the source's failures and want of memory.
    ensures sound { IfSome (S.state source.old).left (λ bytes.
        IsSound pairs (IsPairs limits bytes) limits bytes (listed result)) }
    ensures complete { IfSome (S.state source.old).left (λ bytes.
        IsComplete pairs (IsPairs limits bytes) limits bytes (listed result)) }

    // Over every source a file of pairs has no weights that could be at fault.
    ensures weights { IfErr result BlamesNoWeight }

    // Where the source tells its bytes, at most one byte past the limit is taken.
    ensures takes_at_most { TakesAtMost (limits.total + 1)
        (S.state source.old) (S.state source.new) }

    // The source's failures alone make a failed read.
    ensures source { ReadsFrom (S.state source.old) (S.state source.new) (file_failed result) }
{
    let mut list = PairList::new(alloc);
    read_records::<PairFiles, S, PairList>(alloc, source, limits, &mut list)?;
    Ok(list.pairs)
}
