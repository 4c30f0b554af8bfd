//! Laws of bitcasts.

ghost use Rattle.std.specs.Prelude.{◌≡◌, ◌≤◌, ◌^◌, ℕ, List, None};
ghost use Rattle.clang_reader.specs.Bitcasts.{place_of, settled, stands_for};
ghost use Rattle.clang_reader.specs.Chains.{AreRanked, after};
ghost use Rattle.clang_reader.specs.declared.bitcasts.Bitcast.{Bitcast};

/// What stands for a token is found by following up to 2^n bitcasts. Where these go in no circle, and no chain is
/// longer, it is no bitcast's result (LLVM Language Reference, "bitcast .. to").
pub fn chains_are_followed()
    ensures followed { (n : ℕ) (all : List Bitcast) (t : List ℕ) → stands_for (settled n all) t ≡ after (2 ^ n) all t }
    ensures end { (n : ℕ) (all : List Bitcast) (rank : List ℕ → ℕ) → AreRanked all rank → (t : List ℕ) → rank t ≤ 2 ^ n
        → place_of all (stands_for (settled n all) t) ≡ None }
{}
