// What those who feed a reader rest on, as laws of the definitions.
ghost use Rattle.request_reader.specs.Examples.{RequestLines, PlusParts, DataOfRequests, MuchData};
ghost use Rattle.request_reader.specs.Laws.{VerdictsStay, IsDecided, IsValid, HasLines, HasNames, SaysTheWhole, SaysTheEnd};

/// What a stream says is said whatever follows.
pub fn closed_verdict_stays()
    ensures { VerdictsStay }
{}

/// At the end of input nothing is open.
pub fn decided()
    ensures { IsDecided }
{}

/// The selector of a whole request may name an item, its lines of data are lines, and what it names
/// can stand in a field.
pub fn valid()
    ensures selector { IsValid }
    ensures lines { HasLines }
    ensures names { HasNames }
{}

/// However a stream is cut into pieces, a reader of the pieces says what the stream says.
pub fn any_cuts()
    ensures open { SaysTheWhole }
    ensures ended { SaysTheEnd }
{}

/// Worked examples of requests.
pub fn worked_examples()
    ensures lines { RequestLines }
    ensures plus { PlusParts }
    ensures sent { DataOfRequests }
    ensures much { MuchData }
{}
