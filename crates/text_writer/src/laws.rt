// What holds of texts, pipes and menus, for each body and each site.
ghost use Rattle.std.specs.Prelude.{◌≡◌, ◌++◌, ℕ, List, [], Some, IsTrue};
ghost use Rattle.std.specs.List.{AllByRecursion};
ghost use Rattle.host_types.specs.Card.{card_of};
ghost use Rattle.host_types.specs.Address.{address};
ghost use Rattle.host_types.specs.Items.{is_typed_entry};
ghost use Rattle.host_types.specs.Site.{Site, IsSite, item_at};
ghost use Rattle.host_types.specs.declared.item.Item.{Item};
ghost use Rattle.host_types.specs.declared.menu.Entry.{Entry};
ghost use Rattle.text_writer.specs.Examples.{Examples, MenuExamples};
ghost use Rattle.host_types.specs.Lines.{lines};
ghost use Rattle.text_writer.specs.Text.{EndsOnce, client, text};
ghost use Rattle.text_writer.specs.Pipe.{Piped, PipeCall, HasPiped, fresh, parts_of, will_give};
ghost use Rattle.text_writer.specs.Menu.{IsMenuLine, entry_line, item_line, menu};

/// What a client reads of a text is the lines of its body.
pub fn reads_back()
    ensures { (body : List ℕ) → client (text body) ≡ lines body }
{}

/// Worked examples of texts, menus and errors.
pub fn worked_examples()
    ensures texts { Examples }
    ensures menus { MenuExamples }
{}

/// No line of a menu begins with a period but the last, so that every client finds its end.
pub fn menus_end_once()
    ensures menus { (ls : List (List ℕ)) → AllByRecursion IsMenuLine ls → EndsOnce (menu ls) }
    ensures entries { (s : Site) (entry : Entry) (line : List ℕ) → IsSite s → IsTrue (is_typed_entry entry) → entry_line s entry ≡ Some line → IsMenuLine line }
    ensures items { (s : Site) (selector : List ℕ) (item : Item) → IsSite s → item_at s selector ≡ Some item → IsMenuLine (item_line (address s) selector (card_of item)) }
{}

/// However a body is cut into chunks and whatever room the calls have, what they gave and what the pipe will give are the body's text.
pub fn pipes_give_the_text()
    ensures front { (body left : List ℕ) (calls : List PipeCall) (pipe : Piped) → HasPiped fresh body calls pipe left → parts_of calls ++ will_give pipe left ≡ text body }
    ensures whole { (body left : List ℕ) (calls : List PipeCall) (pipe : Piped) → HasPiped fresh body calls pipe left → will_give pipe [] ≡ [] → parts_of calls ≡ text body }
{}
