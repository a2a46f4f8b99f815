// What holds of adapted requests and replies, for each input and each reply.
ghost use Rattle.std.specs.Prelude.{◌≡◌, ◌++◌, ℕ, Bool, List, true, flat_map};
ghost use Rattle.std.specs.List.{AllByRecursion};
ghost use Rattle.text_writer.specs.Errors.{error_reply};
ghost use Rattle.text_writer.specs.Menu.{IsMenuLine, menu};
ghost use Rattle.text_writer.specs.Text.{text_end};
ghost use Rattle.text_writer.specs.declared.error.ErrorText.{ErrorText};
ghost use Rattle.old_clients.specs.AdaptedReply.{adapted_reply, head_line, info};
ghost use Rattle.old_clients.specs.Examples.{RewrittenLines, OtherLines, Replies};
ghost use Rattle.old_clients.specs.Fetches.{AreFetches};
ghost use Rattle.old_clients.specs.Laws.{PassTheInput, TellOfTheInput, GiveTheReply, OthersPass};

/// However an input or a reply is cut into chunks and whatever room the calls have, what they gave and what the adapter will give are what is passed on of it.
pub fn any_cuts()
    ensures passed { PassTheInput }
    ensures told { TellOfTheInput }
    ensures given { GiveTheReply }
{}

/// Of a client that isn't an old one all is passed on as it comes.
pub fn others_pass()
    ensures { OthersPass }
{}

/// A rewritten line is a fetch of the item at its selector, with data or by its search words.
pub fn rewritten_lines_are_fetches()
    ensures { AreFetches }
{}

/// A menu behind the head line is sent with `+INFO: ` in front of each of its lines, and ends as it did.
pub fn menus_are_informed()
    ensures { (ls : List (List ℕ)) → AllByRecursion IsMenuLine ls → adapted_reply true (head_line ++ menu ls) ≡ head_line ++ flat_map (λ line. info ++ line) ls ++ text_end }
{}

/// No error is changed.
pub fn errors_stay()
    ensures { (rewritten plus : Bool) (error : ErrorText) (place : List ℕ) → adapted_reply rewritten (error_reply plus error place) ≡ error_reply plus error place }
{}

/// Worked examples of requests and replies.
pub fn worked_examples()
    ensures rewritten { RewrittenLines }
    ensures others { OtherLines }
    ensures replies { Replies }
{}
