// What holds of what is imported, as laws of the definitions.
ghost use Rattle.folder_import.specs.ImportExamples.{ImportExamples};
ghost use Rattle.folder_import.specs.Taken.{DocumentsAreTaken};

/// Worked examples of sorts of files, selectors, entries and pages.
pub fn worked_examples()
    ensures { ImportExamples }
{}

/// A document that is put is refused by no site, but where a board with posts stands at its selector.
pub fn documents_are_taken()
    ensures { DocumentsAreTaken }
{}
