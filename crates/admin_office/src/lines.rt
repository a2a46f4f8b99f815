// What an administrator is told.
ghost use Rattle.std.specs.Prelude.{◌≡◌, ℕ, List, IfOk};
ghost use Rattle.std.specs.String.{string_bytes};
ghost use Rattle.admin_office.specs.Lines as spec;
ghost use Rattle.admin_office.specs.Requests.{Refuses};
ghost use Rattle.admin_office.specs.Tasks.{task_of};

use crate::{FaultTexts, Stage, Unsent};
use admin_lines::reply_text;
use change_file::ApplyFault;
use group_world::HubFault;
use host_types::SiteFault;
use std::alloc::{AllocError, Global};

/// What a hub's fault is of its site.
pub(crate) fn site_fault(fault: HubFault) -> SiteFault
    ensures { result ≡ spec.site_fault fault }
{
    match fault {
        HubFault::Refused(refused) => SiteFault::Refused(refused),
        HubFault::Full { need, free } => SiteFault::Full { need, free },
        HubFault::Spent => SiteFault::Spent,
        HubFault::Broken => SiteFault::Read,
        HubFault::Memory => SiteFault::Memory,
        HubFault::Deep => SiteFault::Deep,
        HubFault::Failed | HubFault::Unknown | HubFault::Crowded | HubFault::NotReady => {
            SiteFault::Failed
        }
    }
}

/// It is to be told why not all was done; or, where there was no memory for that, that there was none.
pub(crate) fn refuse_by(alloc: Global, line: Result<String, AllocError>) -> Stage
    ensures { (text : List ℕ) → IfOk line (λ l. string_bytes l ≡ text) → Refuses text (task_of result) }
{
    match line {
        Ok(line) => refuse(alloc, line.as_str()),
        Err(error) => Stage::Telling(Unsent::new(Err(error))),
    }
}

/// The same by a line that is there.
pub(crate) fn refuse(alloc: Global, line: &str) -> Stage
    ensures { Refuses line.now (task_of result) }
{
    Stage::Telling(Unsent::new(reply_text(alloc, false, line)))
}

/// It is to be told that a change was not made.
pub(crate) fn refuse_change<T: FaultTexts>(
    alloc: Global,
    texts: &T,
    number: u64,
    fault: SiteFault,
) -> Stage
    ensures { Refuses (T.says texts.now (spec.not_made number fault)) (task_of result) }
{
    refuse_by(alloc, texts.text(alloc, ApplyFault { number, fault }))
}
