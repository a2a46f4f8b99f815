// The changes of a file, which are made one after another.
ghost use Rattle.std.specs.Prelude.{◌≡◌, ◌-◌, true, length};
ghost use Rattle.std.specs.String.{string_bytes};
ghost use Rattle.change_file.specs.Printed.{applied_line};
ghost use Rattle.admin_lines.specs.Replies.{reply};

use change_file::FileChange;
use std::collections::VecDeque;

/// The changes that are to be made yet, how many they are in all, and the reply once all are made.
#[derive(Drop)]
pub(crate) struct Making {
    pub(crate) left: VecDeque<FileChange>,
    pub(crate) count: u64,
    pub(crate) text: String,
    ghost text_is: { string_bytes text ≡ reply true (applied_line count) },
}

impl Making {
    /// The number of the change before those that are left.
    pub(crate) fn number(&self) -> u64
        ensures { result ≡ self.now.count - length self.now.left.items }
    {
        self.count.saturating_sub(self.left.len() as u64)
    }
}
