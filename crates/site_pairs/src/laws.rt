// What holds of the batch of a change.
ghost use Rattle.site_pairs.specs.EditExamples.{EditExamples};
ghost use Rattle.site_pairs.specs.Laws.{ChangedWordsAreWritten, ChangesHaveKeys};

/// The keys that changes of a sample site put or remove.
pub fn worked_examples()
    ensures { EditExamples }
{}

/// Of the words of two items only those that differ are in the batch that replaces the one by the other: a word that only the old item has goes, and one that only the new item has comes.
pub fn changed_words_are_written()
    ensures { ChangedWordsAreWritten }
{}

/// The keys of a change stand in byte order, each once, and are those of the data of the items that it changes, before and after, and those of the words that differ.
pub fn changes_have_keys()
    ensures { ChangesHaveKeys }
{}
