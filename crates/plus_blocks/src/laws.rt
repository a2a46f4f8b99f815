// What holds of blocks, for each item and each site.
ghost use Rattle.std.specs.Prelude.{◌≡◌, ◌<◌, ◌^◌, ℕ, List, Some, IsTrue};
ghost use Rattle.std.specs.List.{AllByRecursion};
ghost use Rattle.host_types.specs.Card.{card_of};
ghost use Rattle.host_types.specs.Address.{Address, address};
ghost use Rattle.host_types.specs.Items.{is_admin, is_host, is_selector, is_valid_item};
ghost use Rattle.host_types.specs.Site.{Site, IsSite, item_at};
ghost use Rattle.host_types.specs.declared.card.Card.{Card};
ghost use Rattle.host_types.specs.declared.item.Item.{Item};
ghost use Rattle.text_writer.specs.Text.{EndsOnce};
ghost use Rattle.text_writer.specs.Menu.{IsMenuLine};
ghost use Rattle.plus_blocks.specs.Blocks.{AreLines, attributes, entry_attributes, info, item_blocks};
ghost use Rattle.plus_blocks.specs.Examples.{DateExamples, BlockExamples};

/// Worked examples of dates and blocks.
pub fn worked_examples()
    ensures dates { DateExamples }
    ensures blocks { BlockExamples }
{}

/// No line of an attribute reply begins with a period but the last, so that every client finds its end.
pub fn replies_end_once()
    ensures items { (a : Address) (names : List (List ℕ)) (selector : List ℕ) (item : Item) →
        IsTrue (is_host a.host) → a.port < 2 ^ 16 → IsTrue (is_admin a.admin) → IsTrue (is_selector selector) → IsTrue (is_valid_item selector item) → AreLines (item_blocks a names selector (card_of item)) }
    ensures sites { (s : Site) (names : List (List ℕ)) (selector : List ℕ) (item : Item) → IsSite s → item_at s selector ≡ Some item → AreLines (item_blocks (address s) names selector (card_of item)) }
    ensures attributes { (a : Address) (names : List (List ℕ)) (selector : List ℕ) (card : Card) → AreLines (item_blocks a names selector card) → EndsOnce (attributes a names selector card) }
    ensures entries { (blocks : List (List ℕ)) → AllByRecursion AreLines blocks → EndsOnce (entry_attributes blocks) }
    ensures links { (line : List ℕ) → IsMenuLine line → AreLines (info line) }
{}
