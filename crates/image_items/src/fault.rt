// Why an item is not what a command wants.
ghost use Rattle.std.specs.Prelude.{◌≡◌, IfOk};
ghost use Rattle.std.specs.String.{string_bytes};
ghost use Rattle.image_items.specs.ItemLines as spec;
ghost use Rattle.image_items.specs.declared.fault.ItemFault.TheVariants.{Refused as RefusedName};

use common_types::refused_name;
use host_types::Refused;
use std::alloc::{AllocError, Global};
use thiserror::Error;

/// Why an item is not what a command wants.
#[derive(Clone, Copy, Debug, PartialEq, Eq, Error)]
pub enum ItemFault {
    /// Its name is no selector.
    #[error("{0}")]
    Refused(Refused),
    /// Nothing stands at the selector.
    #[error("NotFound")]
    NotFound,
    /// What stands there is no document.
    #[error("NoDocument")]
    NoDocument,
    /// The document has no such view.
    #[error("NoView")]
    NoView,
    /// What stands there is no board.
    #[error("NoBoard")]
    NoBoard,
}

impl From<Refused> for ItemFault {
    ghost from_gives = { λ refused fault. fault ≡ RefusedName refused };

    fn from(refused: Refused) -> Self {
        ItemFault::Refused(refused)
    }
}

/// What standard error gets of such a fault, without its LF.
pub fn item_line(alloc: Global, fault: ItemFault) -> Result<String, AllocError>
    ensures { IfOk result (λ t. string_bytes t ≡ spec.item_line fault) }
{
    match fault {
        ItemFault::Refused(refused) => {
            let name = refused_name(refused);
            format!(in alloc; "item: {name}")
        }
        ItemFault::NotFound => String::from_str(alloc, "item: NotFound"),
        ItemFault::NoDocument => String::from_str(alloc, "item: NoDocument"),
        ItemFault::NoView => String::from_str(alloc, "item: NoView"),
        ItemFault::NoBoard => String::from_str(alloc, "item: NoBoard"),
    }
}
