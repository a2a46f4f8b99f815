// Laws of trees.
ghost use Rattle.std.specs.List.{list_all};
ghost use Rattle.std.specs.Prelude.{◌≡◌, ◌≤◌, ◌<◌, ◌^◌, ◌+◌, ℕ, suc, length, List, Option, Some, None, true};
ghost use Rattle.std.specs.Map.{remove_entry};
ghost use Rattle.std.specs.BTreeMap.{insert_entry, is_at};
ghost use Rattle.sector_device.specs.Sizes.{page_size};
ghost use Rattle.common_types.specs.ByteOrder.{byte_cmp};
ghost use Rattle.page_store.specs.Keys.{is_between};
ghost use Rattle.page_store.specs.Pages.{Pair, Child, leaf_of, branch_of, is_inside};
ghost use Rattle.page_store.specs.Batch.{is_pair};
ghost use Rattle.page_store.specs.Content.{Bounds, Found, place_in, walk};
ghost use Rattle.tree_nodes.specs.Image.{old_of};
ghost use Rattle.tree_nodes.specs.PageBytes.{leaf_page, branch_page, branch_entries};
ghost use Rattle.tree_nodes.specs.PageViews.{has_head};
ghost use Rattle.tree_nodes.specs.Supplied.{Supplies};
ghost use Rattle.tree_nodes.specs.Steps.{NodeStep, RootState, AreSteps, IsValidRoot, after_steps, after_changes, root_pairs, no_tree};
ghost use Rattle.tree_nodes.specs.Tree.{Tree, Others, leaf, branch, OldPages, pairs_of, pages_of, owned_at, other_count, way, entry_room, leaf_bytes, other_bytes};
ghost use Rattle.tree_nodes.specs.Put.{Grown, one, split_leaf, split_branch, put, rooted};
ghost use Rattle.tree_nodes.specs.InTwo.{AreKeys, IsLeafInTwo, IsBranchInTwo, greatest_pair, greatest_child};
ghost use Rattle.tree_nodes.specs.Delete.{delete};
ghost use Rattle.tree_nodes.specs.Valid.{IsValid, IsValidLeaf, IsGrown, IsLeft, IsOld, grown_pairs, grown_pages, grown_owned_at, left_pairs, left_pages, left_owned_at, rooted_level, GainsOneEntry, GainsNoEntry};

/// A leaf in which a pair is put is a leaf, or two that fit their pages.
pub fn a_leaf_grows()
    ensures valid { (old : OldPages) (pairs : List Pair) (low : List ℕ) (high : Option (List ℕ)) (key value : List ℕ) → IsValidLeaf pairs low high → is_between low high key ≡ true → is_pair (key, value) ≡ true →
        IsGrown old 0 (split_leaf (insert_entry byte_cmp pairs key value)) low high }
    ensures pairs { (old : OldPages) (pairs : List Pair) → grown_pairs old (split_leaf pairs) ≡ pairs }
{}

/// A page is split in two that fit, only where its entries don't; between which entries is left open.
pub fn a_split_fits_two_pages()
    ensures whole_leaf { (pairs : List Pair) → leaf_bytes pairs ≤ entry_room → split_leaf pairs ≡ one (leaf pairs) }
    ensures leaf { (pairs : List Pair) → list_all is_pair pairs ≡ true → entry_room < leaf_bytes pairs → leaf_bytes pairs ≤ entry_room + greatest_pair → IsLeafInTwo pairs (split_leaf pairs) }
    ensures whole_branch { (first : Tree) (others : Others) → 6 + other_bytes others ≤ entry_room → split_branch first others ≡ one (branch first others) }
    ensures branch { (first : Tree) (others : Others) → AreKeys others → entry_room < 6 + other_bytes others → 6 + other_bytes others ≤ entry_room + greatest_child → IsBranchInTwo first others (split_branch first others) }
{}

/// A put changes one key, where the way to it is owned.
pub fn a_put_changes_one_key()
    ensures { (tree : Tree) (old : OldPages) → IsOld old → (level : ℕ) (low : List ℕ) (high : Option (List ℕ)) (key value : List ℕ) → IsValid old level tree low high → way key tree ≡ None →
        grown_pairs old (put key value tree) ≡ insert_entry byte_cmp (pairs_of old tree) key value }
{}

/// A put leaves keys that rise between the same bounds, and nodes that fit their pages.
pub fn a_put_stays_valid()
    ensures { (tree : Tree) (old : OldPages) (level : ℕ) (low : List ℕ) (high : Option (List ℕ)) (key value : List ℕ) → IsValid old level tree low high → is_between low high key ≡ true → is_pair (key, value) ≡ true →
        IsGrown old level (put key value tree) low high }
{}

/// A put keeps the pages that are named, and makes at most one new node on each level.
pub fn a_put_makes_one_node_on_each_level()
    ensures pages { (tree : Tree) (key value : List ℕ) → grown_pages (put key value tree) ≡ pages_of tree }
    ensures nodes { (tree : Tree) (key value : List ℕ) (depth : ℕ) → grown_owned_at depth (put key value tree) ≤ owned_at depth tree + 1 }
{}

/// What a tree has grown to is a tree of its level, or of one more and with a root of two entries.
pub fn a_put_adds_at_most_one_level()
    ensures valid { (old : OldPages) (level : ℕ) (grown : Grown) (low : List ℕ) (high : Option (List ℕ)) → IsGrown old level grown low high → IsValid old (rooted_level level grown) (rooted grown) low high }
    // A root branch of at most 13 entries gains at most one, and no level comes.
    ensures small { (old : OldPages) (level : ℕ) (tree : Tree) (others : Others) (low : List ℕ) (high : Option (List ℕ)) (key value : List ℕ) → IsValid old (suc level) (branch tree others) low high → is_between low high key ≡ true →
        is_pair (key, value) ≡ true → other_count others ≤ 12 → GainsOneEntry others (put key value (branch tree others)) }
{}

/// A delete changes one key, where the way to it is owned.
pub fn a_delete_changes_one_key()
    ensures { (tree : Tree) (old : OldPages) → IsOld old → (level : ℕ) (low : List ℕ) (high : Option (List ℕ)) (key : List ℕ) → IsValid old level tree low high → way key tree ≡ None →
        left_pairs old (delete key tree) ≡ remove_entry (is_at (byte_cmp key)) (pairs_of old tree) }
{}

/// A delete leaves nothing, or a tree of the same level that is as valid.
pub fn a_delete_stays_valid()
    ensures { (tree : Tree) (old : OldPages) → IsOld old → (level : ℕ) (low : List ℕ) (high : Option (List ℕ)) (key : List ℕ) → IsValid old level tree low high → IsLeft old level (delete key tree) low high }
{}

/// A delete keeps the pages that are named, makes no node, and gives a root branch no entry.
pub fn a_delete_makes_no_node()
    ensures pages { (tree : Tree) (key : List ℕ) → left_pages (delete key tree) ≡ pages_of tree }
    ensures nodes { (tree : Tree) (key : List ℕ) (depth : ℕ) → left_owned_at depth (delete key tree) ≤ owned_at depth tree }
    ensures entries { (tree : Tree) (others : Others) (key : List ℕ) → GainsNoEntry others (delete key (branch tree others)) }
{}

/// The pages of an image are as a tree may name them, with the pairs that a walk finds.
pub fn pages_of_an_image()
    ensures old { (bytes : ℕ → List ℕ) (bounds : Bounds) → ((n : ℕ) → length (bytes n) ≤ page_size) → IsOld (old_of bytes bounds) }
    ensures pairs { (bytes : ℕ → List ℕ) (bounds : Bounds) (level page : ℕ) (low : List ℕ) (high : Option (List ℕ)) (found : Found) → walk bytes bounds level page low high ≡ Some found → (old_of bytes bounds).pairs page ≡ found.pairs }
{}

/// A page that is needed is read as a node of its level; the tree with that node is as valid, has the same pairs, and one owned node more.
pub fn a_supply_keeps_the_pairs()
    ensures { (tree : Tree) (old : OldPages) → IsOld old → (level : ℕ) (low : List ℕ) (high : Option (List ℕ)) (key : List ℕ) (n : ℕ) → IsValid old level tree low high → way key tree ≡ Some n → Supplies old level key n tree low high }
{}

/// A node of a valid tree is written as a page that is read as the same entries.
pub fn a_page_is_read_again()
    ensures leaf { (bounds : Bounds) (n generation : ℕ) (pairs : List Pair) (low : List ℕ) (high : Option (List ℕ)) → n < 2 ^ 32 → generation < 2 ^ 64 → 1 ≤ generation → generation ≤ bounds.seal → IsValidLeaf pairs low high →
        leaf_of (place_in bounds 0 n) low high (leaf_page n generation pairs) ≡ Some pairs }
    ensures branch { (old : OldPages) (bounds : Bounds) (level n generation : ℕ) (first : Tree) (others : Others) (low : List ℕ) (high : Option (List ℕ)) → bounds.pages ≤ 2 ^ 32 → n < 2 ^ 32 → generation < 2 ^ 64 → suc level < 2 ^ 16 → 1 ≤ generation → generation ≤ bounds.seal →
        IsValid old (suc level) (branch first others) low high → list_all (is_inside bounds.pages) (branch_entries first others) ≡ true →
        branch_of (place_in bounds (suc level) n) low high (branch_page n generation (suc level) (branch_entries first others)) ≡ Some (branch_entries first others) }
{}

/// Bytes with the form of a page begin with its head, so that a test of the head alone refuses none of them.
pub fn a_page_begins_with_its_head()
    ensures leaf { (bounds : Bounds) (n : ℕ) (low : List ℕ) (high : Option (List ℕ)) (bytes : List ℕ) (pairs : List Pair) → length bytes ≤ page_size →
        leaf_of (place_in bounds 0 n) low high bytes ≡ Some pairs → has_head (place_in bounds 0 n) bytes ≡ true }
    ensures branch { (bounds : Bounds) (level n : ℕ) (low : List ℕ) (high : Option (List ℕ)) (bytes : List ℕ) (children : List Child) → length bytes ≤ page_size →
        branch_of (place_in bounds (suc level) n) low high bytes ≡ Some children → has_head (place_in bounds (suc level) n) bytes ≡ true }
{}

/// Any list of puts, deletes and supplies, from any valid tree or from none, leaves a valid tree with the pairs that its changes make.
pub fn any_list_of_steps()
    ensures steps { (steps : List NodeStep) (old : OldPages) → IsOld old → (state : RootState) → AreSteps steps → IsValidRoot old state.root state.height →
        IsValidRoot old (after_steps old state steps).root (after_steps old state steps).height × (root_pairs old (after_steps old state steps).root ≡ after_changes old state (root_pairs old state.root) steps) }
    ensures none { (old : OldPages) → IsValidRoot old no_tree.root no_tree.height }
{}
