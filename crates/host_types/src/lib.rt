//! Names, items and changes of a site, and who keeps one.
#![tactic(auto)]

mod card;
mod change;
mod changes_fault;
mod expiry;
mod form;
mod front;
mod item;
mod laws;
mod limits;
mod line_list;
mod menu;
mod pin_fault;
mod site_fault;
mod site_keeper;
mod typed;
mod view;

pub use card::{CHUNK, Card, CardBody, CardView, CardViewList, chunk_of};
pub use change::Change;
pub use changes_fault::ChangesFault;
pub use common_types::{
    Admin, Bytes, GREATEST_STAMP, Host, List, Refused, Selector, Stamp, Title, Url,
};
pub use expiry::is_over;
pub use form::{ChoiceList, Question, QuestionList};
pub use front::{CardFront, CardSort};
pub use item::{Body, Item};
pub use laws::{changes_keep_sites_valid, what_stands_has_limits, worked_examples};
pub use limits::{LONGEST_SUMMARY, MOST_POST_BYTES, MOST_VIEW_BYTES};
pub use line_list::{LineList, lines_of, without_cr};
pub use menu::{Entry, EntryList, LinkKind};
pub use pin_fault::SitePinFault;
pub use site_fault::SiteFault;
pub use site_keeper::{Address, SiteKeeper};
pub use typed::{valid_admin, valid_host, valid_selector};
pub use view::{Kind, View, ViewList};
