// Laws of the pages that a tree reaches, while it is changed and once it is written.
ghost use Rattle.std.specs.Prelude.{◌≡◌, ◌≤◌, ◌+◌, ℕ, [], ◌∷◌, List, Option, Some, None, true, false, length};
ghost use Rattle.page_store.specs.Sizes.{page_size};
ghost use Rattle.page_store.specs.Pages.{head_at, page_word};
ghost use Rattle.page_store.specs.Content.{Bounds, Found, walk, is_among, are_distinct};
ghost use Rattle.page_store.specs.Commit.{numbers, patched};
ghost use Rattle.page_store.specs.declared.commit.NewPage.{NewPage};
ghost use Rattle.tree_nodes.specs.Image.{head_level, old_of};
ghost use Rattle.tree_nodes.specs.Needs.{needed_level};
ghost use Rattle.tree_nodes.specs.Steps.{RootState, supply_step, needed_under, put_under, delete_under, stepped, IsValidRoot};
ghost use Rattle.tree_nodes.specs.Tree.{Tree, page, OldPages, pages_of};
ghost use Rattle.tree_nodes.specs.Valid.{IsValid};
ghost use Rattle.tree_pages.specs.Written.{IsWritten, ArePut, IsTreePage, AllFit, AddsTree, owned_nodes};
ghost use Rattle.tree_pages.specs.Reached.{times, reached, root_reached, AreKept};

/// A root that is a page of the image reaches what a walk from it finds.
pub fn a_page_reaches_what_a_walk_finds()
    ensures { (bytes : ℕ → List ℕ) (bounds : Bounds) (level n : ℕ) (found : Found) → walk bytes bounds level n [] None ≡ Some found → (m : ℕ) → times m (root_reached bytes bounds (Some (page n))) ≡ times m found.pages }
{}

/// Puts and deletes reach the same pages.
pub fn changes_reach_the_same_pages()
    ensures put { (bytes : ℕ → List ℕ) (bounds : Bounds) (root : Option Tree) (height : ℕ) (key value : List ℕ) (m : ℕ) → times m (root_reached bytes bounds (put_under key value root height).root) ≡ times m (root_reached bytes bounds root) }
    ensures delete { (bytes : ℕ → List ℕ) (bounds : Bounds) (root : Option Tree) (height : ℕ) (key : List ℕ) (m : ℕ) → times m (root_reached bytes bounds (delete_under key root height).root) ≡ times m (root_reached bytes bounds root) }
{}

/// A page that is supplied is no longer reached, and all others are as often as before.
pub fn a_supply_leaves_one_page()
    ensures { (bytes : ℕ → List ℕ) (bounds : Bounds) → ((n : ℕ) → length (bytes n) ≤ page_size) → (state : RootState) (key : List ℕ) (n : ℕ) → IsValidRoot (old_of bytes bounds) state.root state.height → needed_under key state.root ≡ Some n → (m : ℕ) →
        times m (root_reached bytes bounds state.root) ≡ times m (root_reached bytes bounds (stepped (old_of bytes bounds) state (supply_step key)).root) + times m (n ∷ []) }
{}

/// No page is of a higher level than the one from which a walk reaches it.
pub fn reached_pages_have_levels_below()
    ensures walked { (bytes : ℕ → List ℕ) (bounds : Bounds) (level n : ℕ) (low : List ℕ) (high : Option (List ℕ)) (found : Found) → walk bytes bounds level n low high ≡ Some found → (m : ℕ) → 1 ≤ times m found.pages → head_level (head_at page_word (bytes m)) ≤ level }
    ensures needed { (bytes : ℕ → List ℕ) (bounds : Bounds) (state : RootState) (key : List ℕ) (n : ℕ) → IsValidRoot (old_of bytes bounds) state.root state.height → needed_under key state.root ≡ Some n → head_level (head_at page_word (bytes n)) ≡ needed_level key state }
{}

/// The pages that a tree names are kept where all pages that it reaches are.
pub fn reached_pages_are_kept()
    ensures { (bytes now : ℕ → List ℕ) (bounds : Bounds) (level : ℕ) (tree : Tree) (low : List ℕ) (high : Option (List ℕ)) → IsValid (old_of bytes bounds) level tree low high →
        ((m : ℕ) → 1 ≤ times m (reached bytes bounds tree) → IsTreePage bounds.pages m × (bytes m ≡ now m)) → AreKept bytes now bounds (pages_of tree) }
{}

/// Where no two new pages have one number, each has its bytes once all are written, and every other page is as before.
pub fn distinct_pages_are_put()
    ensures put { (old : ℕ → List ℕ) (pages : List NewPage) → ((m : ℕ) → times m (numbers pages) ≤ 1) → ArePut (patched pages old) pages }
    ensures others { (old : ℕ → List ℕ) (pages : List NewPage) (m : ℕ) → times m (numbers pages) ≡ 0 → patched pages old m ≡ old m }
{}

/// The pages of an owned root that is written have numbers of the list, each as often.
pub fn all_given_numbers_are_used()
    ensures { (given : List ℕ) (generation level : ℕ) (new : List NewPage) (tree : Tree) (n : ℕ) → length given ≡ owned_nodes tree → AddsTree given generation level [] new tree n → IsWritten generation level tree n new × (numbers new ≡ given) }
{}

/// A valid tree fits its pages, so that it can be written.
pub fn a_valid_tree_fits()
    ensures { (old : OldPages) (level : ℕ) (tree : Tree) (low : List ℕ) (high : Option (List ℕ)) → IsValid old level tree low high → AllFit level tree }
{}

/// A number stands in a list exactly where it is among its numbers, and at most once where all are different.
pub fn times_and_among()
    ensures { (n : ℕ) (ns : List ℕ) → (is_among n ns ≡ true → 1 ≤ times n ns) × (is_among n ns ≡ false → times n ns ≡ 0) × (are_distinct ns ≡ true → times n ns ≤ 1) }
{}
