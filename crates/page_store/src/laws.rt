// Laws of what an image holds.
ghost use Rattle.std.specs.Prelude.{Option, ◌≡◌, ◌≤◌, ◌<◌, ◌+◌, ◌*◌, ℕ, List, Some, None, IsTrue, false, length};
ghost use Rattle.page_store.specs.Sectors.{Image, sector, page_of};
ghost use Rattle.page_store.specs.Roots.{seal_of, root_at, record_from, slot_of, current, greatest_seal};
ghost use Rattle.page_store.specs.ImageExamples.{ImageExamples};
ghost use Rattle.page_store.specs.declared.slot.Root.{Root};
ghost use Rattle.page_store.specs.declared.slot.Slot.{Slot};
ghost use Rattle.page_store.specs.Content.{Bounds, walk, Found, content, content_under, is_among};
ghost use Rattle.page_store.specs.Same.{Agree, IsSameBut};

/// The eight sectors of a valid slot bear magic word and number, and share its seal.
pub fn a_valid_slot_has_one_seal()
    ensures { (image : Image) (s k : ℕ) (slot : Slot) → slot_of image s ≡ Some slot → k < 8 → seal_of (8 * s + k) (sector image (8 * s + k)) ≡ Some slot.seal }
{}

/// Eight sectors that bear magic word and number and share a seal are a valid slot, where its record reads.
pub fn one_seal_makes_a_slot()
    ensures { (image : Image) (s seal : ℕ) (root : Root) → ((k : ℕ) → k < 8 → seal_of (8 * s + k) (sector image (8 * s + k)) ≡ Some seal) → root_at (length image) (record_from image (8 * s) 8) ≡ Some root →
        slot_of image s ≡ Some (record { number = s; seal = seal; root = root }) }
{}

/// No valid slot has a greater seal than the current one.
pub fn the_current_slot_is_the_newest()
    ensures { (image : Image) (s : ℕ) (slot other : Slot) → current image ≡ Some slot → s < 2 → slot_of image s ≡ Some other → other.seal ≤ slot.seal }
{}

/// What stands under a slot depends on the pages that were reached alone.
pub fn pages_decide()
    ensures { (slot : Slot) (a b : ℕ → List ℕ) (found : Found) → content_under slot a ≡ Some found → Agree found.pages a b → content_under slot b ≡ Some found }
{}

/// A write to a page that isn't a root slot and wasn't reached changes no content.
pub fn a_write_elsewhere()
    ensures { (a b : Image) (page : ℕ) (slot : Slot) (found : Found) → content a ≡ Some (slot, found) → 2 ≤ page → is_among page found.pages ≡ false → IsSameBut page a b → content b ≡ Some (slot, found) }
{}

/// A walk under a greater seal finds the same.
pub fn a_greater_seal()
    ensures { (a : ℕ → List ℕ) (bounds : Bounds) (seal level page : ℕ) (low : List ℕ) (high : Option (List ℕ)) (found : Found) → bounds.seal ≤ seal →
        walk a bounds level page low high ≡ Some found → walk a (record { pages = bounds.pages; seal = seal }) level page low high ≡ Some found }
{}

/// No root sector that bears magic word and number has a seal above the greatest.
pub fn seals_are_at_most_the_greatest()
    ensures { (image : Image) (n seal : ℕ) → n < 16 → seal_of n (sector image n) ≡ Some seal → seal ≤ greatest_seal image 16 }
{}

/// Worked examples of records, root slots, flat pages and batches.
pub fn worked_examples()
    ensures { ImageExamples }
{}
