// The office holds still for an administrator: nobody else is served meanwhile, so nothing is written to the image.
ghost use Rattle.std.specs.Prelude.{◌≡◌, true, IfOk};
ghost use Rattle.std.specs.String.{string_bytes};
ghost use Rattle.admin_lines.specs.Holds.{held_text};
ghost use Rattle.admin_lines.specs.Replies.{reply};
ghost use Rattle.turns.specs.WireCalls.{HasMade};
ghost use Rattle.admin_office.specs.Requests.{Agrees, HoldsOnce, TellsHeld, WaitsOnce};
ghost use Rattle.admin_office.specs.Tasks.{task_of};

use crate::hearing::PIECE;
use crate::lines::refuse;
use crate::{PatientWire, Stage, Unsent};
use admin_lines::{RequestFault, held_line, held_text, reply_text, request_line};
use std::alloc::Global;

/// It is to be told that the office held still until it was let go on.
fn agree(alloc: Global) -> Stage
    ensures { Agrees held_text (task_of result) }
{
    Stage::Telling(Unsent::new(reply_text(alloc, true, held_text())))
}

/// One read, for which a second is waited at most.
fn wait<W: PatientWire>(alloc: Global, wire: &mut W) -> Stage
    ensures { HasMade (W.calls wire.old) (W.calls wire.new) (λ made. WaitsOnce made (task_of result)) }
{
    let mut buffer = [0; PIECE];
    match wire.read_patiently(&mut buffer) {
        Ok(Some(_)) => agree(alloc),
        Ok(None) => refuse(alloc, request_line(RequestFault::Late)),
        Err(_) => {
            wire.close();
            Stage::Closed
        }
    }
}

/// One write that tells the administrator that the office holds still, and whether it was taken whole.
fn tell_held<W: PatientWire>(wire: &mut W) -> bool
    ensures { TellsHeld (W.calls wire.old) (W.calls wire.new) result }
{
    match wire.write(held_line()) {
        Ok(Some(count)) => count == held_line().len(),
        Ok(None) => false,
        Err(_) => false,
    }
}

/// The administrator is told that the office holds still, and is waited for, a second at most.
pub(crate) fn hold<W: PatientWire>(alloc: Global, wire: &mut W) -> Stage
    ensures { HasMade (W.calls wire.old) (W.calls wire.new) (λ made. HoldsOnce made (task_of result)) }
{
    if tell_held(wire) {
        return wait(alloc, wire);
    }
    wire.close();
    Stage::Closed
}
