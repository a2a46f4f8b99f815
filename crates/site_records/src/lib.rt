//! Keys and records: the pairs that represent a site.
#![tactic(auto)]

mod entry_reading;
mod fields;
mod front_reading;
mod keys;
mod laws;
mod lent_question;
mod lent_record;
mod letters;
mod part_chunks;
mod part_writing;
mod question_reading;
mod record;
mod record_reading;
mod record_writing;
mod view_reading;

pub use entry_reading::read_entries;
pub use front_reading::read_front;
pub use keys::{Key, LONGEST_KEY, LONGEST_WORD, chunk_key, item_key, word_key};
pub use laws::{
    first_layouts_hold, items_have_records, items_share_no_key, keys_are_one_to_one,
    layout_is_in_order, layout_tells, layouts_change, layouts_hold, pairs_stand,
    records_have_items, records_tell, values_tell, worked_examples,
};
pub use part_chunks::chunk_count;
pub use part_writing::{entries_bytes, questions_bytes};
pub use question_reading::read_questions;
pub use record::{Record, RecordBody, RecordFault};
pub use record_reading::{read_record, read_record_v1};
pub use record_writing::{LONGEST_RECORD, LONGEST_RECORD_V1, record_of, record_of_v1};
