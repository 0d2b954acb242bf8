ghost use Rattle.std.specs.Prelude.{◌≡◌, ◌/◌, if◌then◌else◌};
ghost use Rattle.std.specs.Bool.{nat_le};

/// From how many spots on a round is shared, however few workers there are: with fewer, starting a thread in each of its phases
/// takes longer than it saves.
const LEAST_SHARED: usize = 1600;

/// How many labels of whole queries, which [`work_claim::Gate::SHARED_FROM`] counts, are as much work as so many spots of one round
/// under 3 or 4 criteria: half as many, but none where sharing the round wouldn't pay.
pub fn labels_of_spots(spots: usize) -> usize
    ensures { result ≡ (if nat_le 1600 spots then spots / 2 else 0) }
{
    if spots < LEAST_SHARED { 0 } else { spots / 2 }
}
