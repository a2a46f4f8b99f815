// What a request is answered.
ghost use Rattle.std.specs.Prelude.{◌≡◌};
ghost use Rattle.site_replies.specs.Reply.{without_post};
ghost use Rattle.site_replies.specs.Replies.{whole};

use host_types::{Bytes, Change, Selector};

/// A view of a document, as it is sent: its head, and then the view's bytes.
#[derive(Drop)]
pub struct ViewReply {
    /// What is sent before the view: nothing, or the head by Gopher+.
    pub head: Bytes,
    /// The selector of the document.
    pub selector: Selector,
    /// The place of the view among those of its document.
    pub view: usize,
    /// How many bytes the view has; at least one.
    pub size: u32,
    /// Whether the bytes are sent as lines and a period, or as they are.
    pub is_text: bool,
}

/// A reply, as far as it is made before it is sent.
#[derive(Drop)]
pub enum Reply {
    /// All of its bytes.
    Whole(Bytes),
    /// The view that is sent.
    View(ViewReply),
}

/// A reply, and the post that it stores.
#[derive(Drop)]
pub struct Answered {
    /// What the client gets.
    pub reply: Reply,
    /// The post, where there is one: a change that the site takes as it stands.
    pub post: Option<Change>,
}

/// A whole reply that stores nothing.
pub fn without_post(bytes: Bytes) -> Answered
    ensures { result ≡ whole (without_post bytes) }
{
    Answered {
        reply: Reply::Whole(bytes),
        post: None,
    }
}
