// A request that is heard: a read of its wire, its head, and its file of changes.
ghost use Rattle.std.specs.Prelude.{◌≡◌, ◌≤◌, ◌+◌, true, nat_lt, length, IfOk};
ghost use Rattle.std.specs.String.{string_bytes};
ghost use Rattle.change_file.specs.Printed.{applied_line};
ghost use Rattle.admin_lines.specs.Replies.{reply};
ghost use Rattle.turns.specs.WireCalls.{HasMade};
ghost use Rattle.admin_office.specs.Requests.{IsHeardSoFar, HasHeardFile, TakesPiece, IsRead, IsTaken, ReadsOnce};
ghost use Rattle.admin_office.specs.Tasks.{task_of};

use crate::lines::{refuse, refuse_by};
use crate::{Making, Stage, Unsent};
use admin_lines::{RequestFault, RequestHead, is_hold, read_head, reply_text, request_line};
use change_file::{FileChange, applied_line, file_line, read_changes};
use daily_turns::ReadyWire;
use std::alloc::{AllocError, Global};
use std::collections::VecDeque;

/// How many bytes are read in a turn, at most.
pub(crate) const PIECE: usize = 2048;

/// The reply once so many changes are made.
fn done_text(alloc: Global, count: u64) -> Result<String, AllocError>
    ensures { IfOk result (λ t. string_bytes t ≡ reply true (applied_line count)) }
{
    let line = applied_line(alloc, count)?;
    reply_text(alloc, true, line.as_str())
}

/// The changes of a file are to be made, one after another.
fn take(alloc: Global, changes: Vec<FileChange>) -> Stage
    ensures { IsTaken (Ok changes.items) (task_of result) }
{
    let count = changes.len() as u64;
    match done_text(alloc, count) {
        Ok(text) => {
            let left = VecDeque::from(changes);
            Stage::Making(Making { left, count, text })
        }
        Err(error) => Stage::Telling(Unsent::new(Err(error))),
    }
}

/// A file of changes is whole.
fn read_file(alloc: Global, bytes: &[u8]) -> Stage
    ensures { IsRead bytes.now (task_of result) }
{
    match read_changes(alloc, bytes) {
        Ok(changes) => take(alloc, changes),
        Err(fault) => refuse_by(alloc, file_line(alloc, fault)),
    }
}

/// What stands once the bytes behind a head were heard: they are read where they are all.
fn heard_file(alloc: Global, head: RequestHead, heard: Vec<u8>) -> Stage
    requires { head.start ≤ length heard.items }
    ensures { HasHeardFile (nat_lt (length heard.items) (head.start + head.count)) head heard.items (task_of result) }
{
    let behind = &heard.as_slice()[head.start..];
    if behind.len() < head.count {
        return Stage::Hearing(heard);
    }
    read_file(alloc, &behind[..head.count])
}

/// What stands once all this was heard.
fn heard_so_far(alloc: Global, heard: Vec<u8>) -> Stage
    ensures { IsHeardSoFar heard.items (task_of result) }
{
    if is_hold(heard.as_slice()) {
        return Stage::Holding;
    }
    match read_head(heard.as_slice()) {
        Ok(None) => Stage::Hearing(heard),
        Ok(Some(head)) => heard_file(alloc, head, heard),
        Err(fault) => refuse(alloc, request_line(fault)),
    }
}

/// What stands once a piece was heard; no bytes are the end.
fn hear_piece(alloc: Global, heard: Vec<u8>, piece: &[u8]) -> Stage
    ensures { TakesPiece heard.items piece.now (task_of result) }
{
    if piece.is_empty() {
        return refuse(alloc, request_line(RequestFault::Cut));
    }
    let mut heard = heard;
    match heard.extend_from_slice(piece) {
        Ok(()) => heard_so_far(alloc, heard),
        Err(error) => Stage::Telling(Unsent::new(Err(error))),
    }
}

/// One read, and what stands then; and whether the request rests.
pub(crate) fn listen<W: ReadyWire>(alloc: Global, wire: &mut W, heard: Vec<u8>) -> (Stage, bool)
    ensures { HasMade (W.calls wire.old) (W.calls wire.new) (λ made. ReadsOnce heard.items made (task_of result.0) result.1) }
{
    let mut buffer = [0; PIECE];
    match wire.read(&mut buffer) {
        Ok(Some(count)) => (hear_piece(alloc, heard, &buffer[..count]), false),
        Ok(None) => (Stage::Hearing(heard), true),
        Err(_) => {
            wire.close();
            (Stage::Closed, false)
        }
    }
}
