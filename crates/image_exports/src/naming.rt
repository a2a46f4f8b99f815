// The items that no change puts, by name.
ghost use Rattle.std.specs.Prelude.{◌≡◌, ◌++◌, OnOk, IfErr, string_bytes};
ghost use Rattle.change_writer.specs.Comments.{comment};
ghost use Rattle.host_types.specs.declared.site_fault.SiteFault.TheVariants.{Memory};
ghost use Rattle.image_exports.specs.Told as spec;

use change_writer::add_comment;
use common_types::escaped;
use host_types::{CardBody, Selector, SiteFault};
use std::alloc::Global;

/// Why no change puts an item.
pub fn reason(selector: &Selector, body: &CardBody) -> &'static str
    ensures { result.now ≡ spec.reason selector.now body.now }
{
    if selector.is_reserved() {
        return "a post";
    }
    match body {
        CardBody::Moved { .. } => "moved",
        _ => "not UTF-8",
    }
}

/// Adds a comment that names an item which no change puts, and says why.
pub fn name_item(
    alloc: Global,
    comments: &mut String,
    selector: &Selector,
    why: &str,
) -> Result<(), SiteFault>
    ensures named { OnOk result (string_bytes comments.new ≡ string_bytes comments.old ++ comment (spec.named_as why.now selector.now)) }
    ensures fault { IfErr result (λ e. e ≡ Memory) }
{
    let name = escaped(alloc, selector.as_bytes())?;
    let text = format!(in alloc; "left out, {why}: {name}")?;
    add_comment(comments, &text)?;
    Ok(())
}
