// On what terms clients come in, and how the log tells of them.

/// How a line of the log is written.
#[derive(Clone, Copy, Debug, PartialEq, Eq)]
pub enum LogForm {
    /// In a form of this program's own.
    Own,
    /// In the common log format of web servers.
    Common,
}

/// On what terms clients come in, and how the log tells of them.
#[derive(Clone, Copy, Debug, PartialEq, Eq)]
pub struct Terms {
    /// How many of one origin may be in at a time.
    pub most: u32,
    /// How many posts of one origin may come to wait in a minute, where that is limited.
    pub posts: Option<u32>,
    /// Whether they are taken for old clients: what they send and what they get is adapted.
    pub old_clients: bool,
    /// How a line of the log is written.
    pub log: LogForm,
}
