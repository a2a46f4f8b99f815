// Worked examples.
ghost use Rattle.word_search.specs.SearchExamples.{SearchExamples};

/// Worked examples of words and searches.
pub fn worked_examples()
    ensures { SearchExamples }
{}
