// Selectors of posts.
ghost use Rattle.std.specs.Prelude.{◌≡◌, ◌<◌, IfOk, MatchOption, length};
ghost use Rattle.common_types.specs.Names.{post_selector};

use crate::Selector;
use std::alloc::{AllocError, Global};

/// The bytes of a post's selector.
fn post_name(alloc: Global, board: &[u8], number: u64) -> Result<Vec<u8>, AllocError>
    ensures { IfOk result (λ name. name.items ≡ post_selector board.now number) }
{
    let digits = format!(in alloc; "{number}")?;
    let mut name = Vec::new(alloc);
    name.extend_from_slice(b"post/")?;
    name.extend_from_slice(board)?;
    name.extend_from_slice(b"/")?;
    name.extend_from_slice(digits.as_bytes())?;
    Ok(name)
}

impl Selector {
    /// The selector of a post: `post/`, the board's, `/` and the number. None where it would have over 255 bytes.
    pub fn of_post(
        alloc: Global,
        board: &Selector,
        number: u64,
    ) -> Result<Option<Selector>, AllocError>
        ensures { IfOk result (λ o. MatchOption o (255 < length (post_selector board.now number)) (λ s. s ≡ post_selector board.now number)) }
    {
        let name = post_name(alloc, board.as_bytes(), number)?;
        match Selector::new(&name) {
            Ok(selector) => Ok(Some(selector)),
            Err(_) => Ok(None),
        }
    }
}
