// What holds of the regions: each law is the contract of a function that does nothing.
ghost use Rattle.std.specs.Prelude.{◌≡◌, ◌≢◌, ◌↔◌, ◌≤◌, ℕ, Some, IsSome};
ghost use Rattle.region_memory.specs.Regions.{Regions, IsWithinLimits, opened, word_at, with_word};
ghost use Rattle.region_memory.specs.Laws.{AreApart, SpotsAreExact, IsWritable, KeepsSizes};

use super::layout::{HEAP_LIMIT, STACK_LEAST, STACK_LIMIT};

/// Within the limits each region ends before the next one begins, so an address lies in at most one of them.
pub fn regions_are_apart()
    ensures { (r : Regions) → IsWithinLimits r → AreApart r }
{}

/// Within the limits an address is exactly the place of a region that begins there.
pub fn spots_are_exact()
    ensures { (r : Regions) → IsWithinLimits r → SpotsAreExact r }
{}

/// Within the limits exactly the multiples of eight in the argument area, the stack and the heap can be written.
pub fn writable_places()
    ensures { (r : Regions) (address value : ℕ) → IsWithinLimits r
        → (IsSome (with_word r address value) ↔ IsWritable r address) }
{}

/// A word that was written is read again.
pub fn written_is_read()
    ensures { (r after : Regions) (address value : ℕ) → with_word r address value ≡ Some after
        → word_at after address ≡ Some value }
{}

/// A write changes what is read at its own address alone.
pub fn others_stay()
    ensures { (r after : Regions) (address other value : ℕ) → with_word r address value ≡ Some after
        → other ≢ address → word_at after other ≡ word_at r other }
{}

/// A write keeps the sizes of all regions, the code and the function table, so it keeps the limits too.
pub fn writes_keep_sizes()
    ensures sizes { (r after : Regions) (address value : ℕ) → with_word r address value ≡ Some after
        → KeepsSizes r after }
    ensures limits { (r after : Regions) (address value : ℕ) → with_word r address value ≡ Some after
        → IsWithinLimits r → IsWithinLimits after }
{}

/// The regions that a run begins with are within the limits, where its heap and its stack are.
pub fn opened_is_within_limits()
    ensures { (heap stack : ℕ) → heap ≤ HEAP_LIMIT → STACK_LEAST ≤ stack → stack ≤ STACK_LIMIT
        → IsWithinLimits (opened heap stack) }
{}

/// Every word that can be read in the regions that a run begins with is 0.
pub fn opened_words_are_zero()
    ensures { (heap stack address value : ℕ) → word_at (opened heap stack) address ≡ Some value → value ≡ 0 }
{}
