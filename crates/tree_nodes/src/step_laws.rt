// Laws of the steps of a batch: the nodes and levels that come, the pages that are read, and the keys that are there.
ghost use Rattle.std.specs.Prelude.{◌≡◌, ◌≤◌, ◌<◌, ◌+◌, ◌-◌, ◌^◌, ℕ, List, Some, None, true, is_some, IsSome, max};
ghost use Rattle.page_store.specs.Batch.{is_pair, value_at};
ghost use Rattle.page_store.specs.Content.{Bounds};
ghost use Rattle.tree_nodes.specs.Tree.{OldPages};
ghost use Rattle.tree_nodes.specs.Supply.{tree_in};
ghost use Rattle.tree_nodes.specs.Valid.{IsOld};
ghost use Rattle.tree_nodes.specs.Steps.{RootState, IsValidRoot, needed_under, put_under, delete_under, read_under, supply_step, stepped, root_pairs};
ghost use Rattle.tree_nodes.specs.Needs.{needed_level};
ghost use Rattle.tree_nodes.specs.Growth.{owned_under, MayHaveGrown};
ghost use Rattle.tree_nodes.specs.Keys.{has_under};

/// A put makes at most one node for each level of the tree that it leaves, a delete none, and a supply one.
pub fn steps_make_few_nodes()
    ensures put { (old : OldPages) (state : RootState) (key value : List ℕ) → IsValidRoot old state.root state.height → is_pair (key, value) ≡ true →
        owned_under (put_under key value state.root state.height).root ≤ owned_under state.root + (put_under key value state.root state.height).height }
    ensures delete { (state : RootState) (key : List ℕ) → owned_under (delete_under key state.root state.height).root ≤ owned_under state.root }
    ensures supply { (old : OldPages) → IsOld old → (state : RootState) (key : List ℕ) (n : ℕ) → IsValidRoot old state.root state.height → needed_under key state.root ≡ Some n →
        owned_under (stepped old state (supply_step key)).root ≡ owned_under state.root + 1 }
{}

/// A page that is read on a key's path ends it or leads one level down.
pub fn a_supply_leads_down()
    ensures any { (bounds : Bounds) (bytes : List ℕ) (state : RootState) (key : List ℕ) (n m : ℕ) → needed_under key state.root ≡ Some n → IsSome (tree_in bounds (needed_level key state) n bytes) →
        needed_under key (read_under key (tree_in bounds (needed_level key state) n bytes) state.root state.height).root ≡ Some m →
        needed_level key (read_under key (tree_in bounds (needed_level key state) n bytes) state.root state.height) < needed_level key state }
    ensures height { (old : OldPages) (state : RootState) (key : List ℕ) → (stepped old state (supply_step key)).height ≡ state.height }
{}

/// Levels come slowly: where a tree has grown above 16 levels, there were seven edits for the first of its new levels but one, and for each other one seven times as many.
pub fn levels_come_slowly()
    ensures start { (state : RootState) → MayHaveGrown state.height 0 state }
    ensures put { (old : OldPages) (from edits : ℕ) (state : RootState) (key value : List ℕ) → IsValidRoot old state.root state.height → is_pair (key, value) ≡ true → MayHaveGrown from edits state →
        MayHaveGrown from (edits + 1) (put_under key value state.root state.height) }
    ensures delete { (from edits : ℕ) (state : RootState) (key : List ℕ) → MayHaveGrown from edits state → MayHaveGrown from (edits + 1) (delete_under key state.root state.height) }
    ensures supply { (old : OldPages) (from edits : ℕ) (state : RootState) (key : List ℕ) → MayHaveGrown from edits state → MayHaveGrown from edits (stepped old state (supply_step key)) }
    ensures deep { (from edits all : ℕ) (state : RootState) → edits ≤ all → 0 < all → MayHaveGrown from edits state → 16 < state.height → 7 ^ (16 - max 1 from) ≤ all }
{}

/// Where the nodes on a key's path are owned, the leaf at its end says whether the key has a value.
pub fn a_leaf_knows_its_keys()
    ensures { (old : OldPages) → IsOld old → (state : RootState) (key : List ℕ) → IsValidRoot old state.root state.height → needed_under key state.root ≡ None →
        has_under key state.root ≡ is_some (value_at (root_pairs old state.root) key) }
{}
