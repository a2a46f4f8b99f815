//! The words of items, and searches by them.
#![tactic(auto)]

mod changed_words;
mod find;
mod laws;
mod matching;
mod search_keeper;
mod selector_list;
mod word;
mod word_list;

pub use changed_words::{WordChange, word_change};
pub use find::{Find, FindList};
pub use laws::worked_examples;
pub use matching::{MOST_FOUND, look_at};
pub use search_keeper::SearchKeeper;
pub use selector_list::SelectorList;
pub use word::words_in;
pub use word_list::{card_words, words};
