// One turn of a request.
ghost use Rattle.std.specs.Prelude.{◌≡◌, if◌then◌else◌, [], ◌∷◌};
ghost use Rattle.group_hub.specs.Calls.{RunsHub};
ghost use Rattle.turns.specs.Runs.{HasRun};
ghost use Rattle.turns.specs.Turns.{trace};
ghost use Rattle.admin_office.specs.Offices as spec;
ghost use Rattle.admin_office.specs.Requests.{MakesNext, StepsBy};
ghost use Rattle.admin_office.specs.Tasks.{task_of};

use crate::hearing::listen;
use crate::holding::hold;
use crate::lines::{refuse_change, site_fault};
use crate::telling::tell;
use crate::{FaultTexts, Making, PatientWire, Request, Stage, Unsent};
use change_file::FileChange;
use group_hub::Hub;
use host_types::{Change, SiteFault};
use std::alloc::Global;
use turns::Clock;
use word_search::SearchKeeper;

/// A change is made before those that are left.
fn make<S: SearchKeeper, C: Clock, T: FaultTexts>(
    alloc: Global,
    texts: &T,
    change: Change,
    making: Making,
    hub: &mut Hub<S>,
    clock: &mut C,
) -> Stage
    ensures { HasRun RunsHub hub.old hub.new (C.given clock.old) (C.given clock.new) (λ es os. MakesNext (T.says texts.now) (FileChange.Change change ∷ making.left.items) making.count (trace [] es os) (task_of result)) }
{
    match hub.admin(change, clock.now()) {
        Ok(()) => Stage::Making(making),
        Err(fault) => refuse_change(alloc, texts, making.number(), site_fault(fault)),
    }
}

/// The next change is made; where none is left, that is to be told.
fn make_next<S: SearchKeeper, C: Clock, T: FaultTexts>(
    alloc: Global,
    texts: &T,
    making: Making,
    hub: &mut Hub<S>,
    clock: &mut C,
) -> Stage
    ensures { HasRun RunsHub hub.old hub.new (C.given clock.old) (C.given clock.new) (λ es os. MakesNext (T.says texts.now) making.left.items making.count (trace [] es os) (task_of result)) }
{
    let Making {
        mut left,
        count,
        text,
    } = making;
    let Some(change) = left.pop_front() else {
        return Stage::Telling(Unsent::new(Ok(text)));
    };
    let making = Making { left, count, text };
    match change {
        FileChange::Change(change) => make(alloc, texts, change, making, hub, clock),
        FileChange::Refused(refused) => {
            refuse_change(alloc, texts, making.number(), SiteFault::Refused(refused))
        }
    }
}

/// What a request does that doesn't rest; and whether it rests afterwards.
fn act<S: SearchKeeper, C: Clock, W: PatientWire, T: FaultTexts>(
    alloc: Global,
    texts: &T,
    wire: &mut W,
    stage: Stage,
    hub: &mut Hub<S>,
    clock: &mut C,
) -> (Stage, bool)
    ensures { HasRun RunsHub hub.old hub.new (C.given clock.old) (C.given clock.new) (λ es os. StepsBy (T.says texts.now) (W.calls wire.old) (W.calls wire.new) (task_of stage) es os (task_of result.0) result.1) }
{
    match stage {
        Stage::Hearing(heard) => listen(alloc, wire, heard),
        Stage::Holding => (hold(alloc, wire), false),
        Stage::Making(making) => (make_next(alloc, texts, making, hub, clock), false),
        Stage::Telling(unsent) => tell(wire, unsent),
        Stage::Closed => (Stage::Closed, false),
    }
}

/// A turn of a request that doesn't rest, or is called.
fn move_on<S: SearchKeeper, C: Clock, W: PatientWire, T: FaultTexts>(
    alloc: Global,
    texts: &T,
    request: Request<W>,
    hub: &mut Hub<S>,
    clock: &mut C,
    now: u64,
) -> Request<W>
    ensures run { HasRun RunsHub hub.old hub.new (C.given clock.old) (C.given clock.new) (λ es os. StepsBy (T.says texts.now) (W.calls request.wire) (W.calls result.wire) (task_of request.stage) es os (task_of result.stage) result.rests) }
    ensures moved { result.moved ≡ (if result.rests then request.moved else now) }
{
    let Request {
        mut wire,
        stage,
        moved,
        ..
    } = request;
    let (stage, rests) = act(alloc, texts, &mut wire, stage, hub, clock);
    Request {
        wire,
        stage,
        rests,
        moved: if rests { moved } else { now },
    }
}

/// One turn, unless it rests and is not called.
fn take_turn<S: SearchKeeper, C: Clock, W: PatientWire, T: FaultTexts>(
    alloc: Global,
    texts: &T,
    request: Request<W>,
    hub: &mut Hub<S>,
    clock: &mut C,
    called: bool,
    now: u64,
) -> Request<W>
    ensures { HasRun RunsHub hub.old hub.new (C.given clock.old) (C.given clock.new) (λ es os. spec.ForRequest W.calls (spec.HasRequestTurn (T.says texts.now) called now) request es os result) }
{
    if request.is_asleep(called) {
        return request;
    }
    move_on(alloc, texts, request, hub, clock, now)
}

/// It is dismissed where its time is over.
fn dismiss_if_late<W: PatientWire>(request: Request<W>, now: u64) -> Request<W>
    ensures { spec.ForRequest W.calls (spec.IsLetGo now) request [] [] result }
{
    if !request.is_late(now) {
        return request;
    }
    let mut request = request;
    request.wire.close();
    request.stage = Stage::Closed;
    request
}

/// It has a turn, and goes where its time is over.
pub(crate) fn serve<S: SearchKeeper, C: Clock, W: PatientWire, T: FaultTexts>(
    alloc: Global,
    texts: &T,
    request: Request<W>,
    hub: &mut Hub<S>,
    clock: &mut C,
    called: bool,
    now: u64,
) -> Request<W>
    ensures { HasRun RunsHub hub.old hub.new (C.given clock.old) (C.given clock.new) (λ es os. spec.ForRequest W.calls (spec.IsServed (T.says texts.now) called now) request es os result) }
{
    let request = take_turn(alloc, texts, request, hub, clock, called, now);
    dismiss_if_late(request, now)
}
