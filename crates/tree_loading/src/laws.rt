// Laws of trees in filled pages.
ghost use Rattle.std.specs.Prelude.{◌≡◌, ◌≤◌, ◌+◌, ◌*◌, ℕ, suc, [], ◌∷◌, List, Option, Some, None, IsTrue, true, length};
ghost use Rattle.page_store.specs.Sizes.{most_pairs};
ghost use Rattle.page_store.specs.Pages.{Pair};
ghost use Rattle.page_store.specs.Batch.{is_map};
ghost use Rattle.page_store.specs.Content.{Bounds};
ghost use Rattle.tree_nodes.specs.Growth.{owned_under};
ghost use Rattle.tree_nodes.specs.Steps.{IsValidRoot, root_pairs};
ghost use Rattle.tree_nodes.specs.Tree.{Tree, Others, none, other, OldPages, other_count};
ghost use Rattle.tree_nodes.specs.Valid.{IsValidRow, left_pages};
ghost use Rattle.tree_pages.specs.Written.{AllFit};
ghost use Rattle.tree_pages.specs.Reached.{root_reached};
ghost use Rattle.tree_loading.specs.Filled.{leaves_of, branches_of, filled};
ghost use Rattle.tree_loading.specs.Full.{AreFull, level_below};
ghost use Rattle.tree_loading.specs.LoadingExamples.{LoadingExamples};

/// It is a valid tree over any old pages, and its pairs are the pairs given.
pub fn a_filled_tree_has_the_pairs()
    ensures valid { (old : OldPages) (pairs : List Pair) → is_map pairs ≡ true → IsValidRoot old (filled pairs).root (filled pairs).height }
    ensures pairs { (old : OldPages) (pairs : List Pair) → is_map pairs ≡ true → root_pairs old (filled pairs).root ≡ pairs }
{}

/// All its nodes are owned: it names no page of an image, and reaches none.
pub fn a_filled_tree_is_owned()
    ensures pages { (pairs : List Pair) → left_pages (filled pairs).root ≡ [] }
    ensures reached { (bytes : ℕ → List ℕ) (bounds : Bounds) (pairs : List Pair) → root_reached bytes bounds (filled pairs).root ≡ [] }
{}

/// It has at most 14 levels, fewer than the 16 that an image may have; without pairs it has none.
pub fn a_filled_tree_has_few_levels()
    ensures levels { (pairs : List Pair) → is_map pairs ≡ true → length pairs ≤ most_pairs → (filled pairs).height ≤ 14 }
    ensures none { (filled []).height ≡ 0 }
    // A level has at most a quarter, rounded up, of the nodes of the level below.
    ensures quarter { (old : OldPages) (level : ℕ) (row : Others) (low : List ℕ) (high : Option (List ℕ)) → IsValidRow old level row low high → 4 * other_count (branches_of row) ≤ other_count row + 3 }
{}

/// It has at most twice as many nodes as there are pairs.
pub fn a_filled_tree_has_few_nodes()
    ensures { (pairs : List Pair) → is_map pairs ≡ true → owned_under (filled pairs).root ≤ 2 * length pairs }
{}

/// Each node fits its page.
pub fn a_filled_tree_fits()
    ensures { (pairs : List Pair) (level : ℕ) (tree : Tree) → is_map pairs ≡ true → (filled pairs).root ≡ Some tree → (filled pairs).height ≡ suc level → AllFit level tree }
{}

/// No leaf has room for the first pair of the leaf after it, and no branch for the first child of the branch after it.
pub fn no_node_has_room_for_more()
    ensures leaves { (pairs : List Pair) → AreFull (leaves_of pairs) }
    ensures branches { (level : Others) → AreFull (branches_of level) }
    // so at each depth of the whole tree
    ensures tree { (pair : Pair) (pairs : List Pair) (tree : Tree) (depth : ℕ) → (filled (pair ∷ pairs)).root ≡ Some tree → AreFull (level_below depth (other pair.0 tree none)) }
{}

/// Worked examples of trees in filled pages.
pub fn worked_examples()
    ensures { LoadingExamples }
{}
