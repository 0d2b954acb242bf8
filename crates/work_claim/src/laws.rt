//! What the rule of the counter means for its seats.
ghost use Rattle.std.specs.Prelude.{◌≡◌, ℕ, ◌<◌, ◌≤◌, List, ◌∷◌, ◌++◌, flat_map, slice_index};
ghost use Rattle.list_laws.specs.Sets.{ListsOnce};
ghost use Rattle.work_claim.specs.Claims.{AreClaims, Draws, HoldsEachPieceOnce, past};

/// Of the numbers below the counter each stands once in the list of one seat, and no other number stands in any.
pub fn seats_share_the_numbers()
    ensures { (pieces workers : ℕ) (words : List ℕ) (seats : List Draws)
        → AreClaims pieces workers words seats
        → ListsOnce (λ x. x < slice_index words 0) (flat_map (λ s. s.numbers) seats) }
{}

/// Where one seat draws for all workers, and for each has drawn a number past the pieces, its list has each piece once.
pub fn last_seats_hold_each_piece_once()
    ensures { (pieces workers : ℕ) (words : List ℕ) (before after : List Draws) (s : Draws)
        → AreClaims pieces workers words (before ++ s ∷ after)
        → 1 ≤ workers → s.workers ≡ workers → past pieces s.numbers ≡ workers
        → HoldsEachPieceOnce pieces s.numbers }
{}
