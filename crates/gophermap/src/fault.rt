// Why a line of a gophermap says nothing that a menu of ours can show.
use common_types::Refused;
use thiserror::Error;

/// Why a line of a gophermap says nothing that a menu of ours can show.
#[derive(Clone, Copy, Debug, PartialEq, Eq, Error)]
pub enum LineFault {
    /// It has no TAB, and begins as an order to one of the servers, while others show it.
    #[error("order")]
    Order,
    /// It has more fields than type and title, selector, host and port.
    #[error("fields")]
    Fields,
    /// It has a type that no menu of ours has, or none.
    #[error("type")]
    Kind,
    /// Its title, or the text of an info line, is not valid.
    #[error("title: {0}")]
    Title(Refused),
    /// Its selector is not valid.
    #[error("selector: {0}")]
    Selector(Refused),
    /// What stands behind `URL:` is no link that a browser may follow.
    #[error("link: {0}")]
    Link(Refused),
    /// Its host is not valid.
    #[error("host: {0}")]
    Host(Refused),
    /// Its port is no number of 1 to 65535 in at most five digits.
    #[error("port")]
    Port,
}
