// What holds of the commands on items.
ghost use Rattle.image_items.specs.ItemExamples.{ItemExamples};

/// Worked examples.
pub fn worked_examples()
    ensures { ItemExamples }
{}
