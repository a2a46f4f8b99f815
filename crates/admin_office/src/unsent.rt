// What an administrator is to be told yet.
use std::alloc::AllocError;

/// A reply, or that there was no memory for it, and how much of it was told.
#[derive(Drop)]
pub(crate) struct Unsent {
    pub(crate) text: Option<String>,
    pub(crate) sent: usize,
}

impl Unsent {
    ghost use Rattle.std.specs.Prelude.{◌≡◌, drop, IfOk, OnErr};
    ghost use Rattle.std.specs.String.{string_bytes};
    ghost use Rattle.admin_office.specs.Lines.{no_memory};
    ghost use Rattle.admin_office.specs.Tasks.{told, unsent_bytes};

    /// A reply of which nothing was told yet.
    pub(crate) fn new(text: Result<String, AllocError>) -> Unsent
        ensures made { IfOk text (λ t. unsent_bytes result ≡ string_bytes t) }
        ensures not_made { OnErr text (unsent_bytes result ≡ no_memory) }
    {
        match text {
            Ok(text) => Unsent {
                text: Some(text),
                sent: 0,
            },
            Err(_) => Unsent {
                text: None,
                sent: 0,
            },
        }
    }

    /// All of it.
    fn all(&self) -> &[u8]
        ensures { result.now ≡ told self.now.text }
    {
        match &self.text {
            Some(text) => text.as_bytes(),
            None => b"fault\nmemory\n",
        }
    }

    /// What is to be told yet.
    pub(crate) fn bytes(&self) -> &[u8]
        ensures { result.now ≡ unsent_bytes self.now }
    {
        let all = self.all();
        &all[self.sent.min(all.len())..]
    }

    /// So much more of it was told.
    pub(crate) fn pass(&mut self, count: usize)
        ensures { unsent_bytes self.new ≡ drop count (unsent_bytes self.old) }
    {
        let end = self.all().len();
        self.sent = self.sent.saturating_add(count).min(end);
    }
}
