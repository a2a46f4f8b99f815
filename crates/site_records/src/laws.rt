// What holds of keys, records and the layout.
ghost use Rattle.site_records.specs.Keys.{KeysAreOneToOne};
ghost use Rattle.site_records.specs.RecordExamples.{RecordExamples};
ghost use Rattle.site_records.specs.Laws.{ItemsShareNoKey, PairsStand, LayoutIsInOrder, LayoutsHold, FirstLayoutsHold, LayoutsChange, ValuesTell, RecordsTell, ItemsHaveRecords, RecordsHaveItems, LayoutTells};

/// The layout of a sample site, byte for byte, and other worked examples.
pub fn worked_examples()
    ensures { RecordExamples }
{}

/// Each key has bytes of its own, across the three sorts too.
pub fn keys_are_one_to_one()
    ensures { KeysAreOneToOne }
{}

/// Pairs of different items have no key in common.
pub fn items_share_no_key()
    ensures { ItemsShareNoKey }
{}

/// Each pair of an item that keeps all limits is what stands at its key among them.
pub fn pairs_stand()
    ensures { PairsStand }
{}

/// The pairs of a layout stand in byte order of their keys, each key once.
pub fn layout_is_in_order()
    ensures { LayoutIsInOrder }
{}

/// What stands at the key of a record, of a chunk and of a word.
pub fn layouts_hold()
    ensures { LayoutsHold }
{}

/// What stands at the keys in version 1: the records of that version, and at all other keys the same.
pub fn first_layouts_hold()
    ensures { FirstLayoutsHold }
{}

/// What becomes of the layout where an item is put, or goes.
pub fn layouts_change()
    ensures { LayoutsChange }
{}

/// Pairs in byte order of which each key has what it has in a layout are that layout.
pub fn values_tell()
    ensures { ValuesTell }
{}

/// Records that are written alike are one.
pub fn records_tell()
    ensures { RecordsTell }
{}

/// An item that keeps all limits has a record that is read.
pub fn items_have_records()
    ensures { ItemsHaveRecords }
{}

/// A record that is read is that of an item that keeps all limits.
pub fn records_have_items()
    ensures { RecordsHaveItems }
{}

/// Equal layouts of sites with the same address are those of one site.
pub fn layout_tells()
    ensures { LayoutTells }
{}
