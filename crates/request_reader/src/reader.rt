// The reader that is fed by pieces.
ghost use Rattle.std.specs.Prelude.{◌≡◌, ◌≤◌, true, false, IfOk, IsOk, IfSome, take, vec_len};
ghost use Rattle.std.specs.Option.{option_map};
ghost use Rattle.request_reader.specs.Verdict.{is_open};
ghost use Rattle.request_reader.specs.Scanned.{IsScanned};
ghost use Rattle.request_reader.specs.ReceivedInput.{ReceivedInput, verdict_by, silence, fed, finished, undone, unmarked};
ghost use Rattle.request_reader.specs.Seen.{seen};

use crate::StreamVerdict;
use crate::stream::{answer_from, scan_data};
use std::alloc::{AllocError, Global};
use std::marker::Model;

/// What was heard before the last call.
#[derive(Clone, Copy)]
struct Before {
    length: usize,
    ended: bool,
}

/// A request as it comes in, piece by piece. Once the stream says something, what follows is ignored
/// and the answer stays.
#[derive(Drop)]
pub struct Reader {
    received: Vec<u8>,
    ended: bool,
    before: Option<Before>,
    /// How many bytes of the data were scanned, so that no line is scanned twice.
    scanned: usize,
}

impl Model for Reader {
    ghost Value = { ReceivedInput };

    ghost view = { λ r. record { input = record { bytes = r.received.items; ended = r.ended }; before = option_map (λ b. record { bytes = take b.length r.received.items; ended = b.ended }) r.before } };

    ghost invariant = { λ r. IfSome r.before (λ b. b.length ≤ vec_len r.received)
        × IsScanned r.received.items r.scanned };
}

impl Reader {
    ghost use Rattle.std.specs.Borrow.{sem};
    ghost use Rattle.request_reader.specs.Rests.{RestsFed, RestsFinished};

    /// A reader that heard nothing. Takes no memory.
    #[tactic(auto, using(crate::proofs::Periods::not_scanned), unfolding(crate::specs::Verdict::verdict, crate::specs::Lines::first_line, crate::specs::Lines::front))]
    pub fn new(alloc: Global) -> Self
        ensures silent { result ≡ silence }
        ensures open { is_open (verdict_by result.input) ≡ true }
    {
        Reader {
            received: Vec::new(alloc),
            ended: false,
            before: None,
            scanned: 0,
        }
    }

    /// What the stream so far says.
    pub fn answer(&self) -> StreamVerdict<'_>
        ensures { seen result ≡ verdict_by self.now.input }
    {
        answer_from(&self.received, self.ended, self.scanned)
    }

    /// Whether the stream so far says nothing yet.
    pub fn is_open(&self) -> bool
        ensures { result ≡ is_open (verdict_by self.now.input) }
    {
        match self.answer() {
            StreamVerdict::More => true,
            _ => false,
        }
    }

    /// Takes the next piece, while the stream says nothing yet, and says what the stream says then.
    /// Without memory nothing is taken. A piece that is ignored takes no memory.
    pub fn feed(&mut self, piece: &[u8]) -> Result<StreamVerdict<'_>, AllocError>
        ensures* after { sem 𝓛 (RestsFed self.entry piece.now result) }
        ensures said { IfOk result (λ a. seen a ≡ verdict_by (fed self.old piece.now).input) }
        ensures ignored { is_open (verdict_by self.old.input) ≡ false → IsOk result }
    {
        self.take_piece(piece)?;
        Ok(self.answer())
    }

    /// Takes the end of the input, while the stream says nothing yet, and says what the stream says then.
    /// Takes no memory.
    pub fn finish(&mut self) -> StreamVerdict<'_>
        ensures* after { sem 𝓛 (RestsFinished self.entry) }
        ensures said { seen result ≡ verdict_by (finished self.old).input }
    {
        self.take_end();
        self.answer()
    }

    /// Takes back what the call just before took. Takes no memory.
    #[tactic(auto, using(crate::proofs::Periods::not_scanned))]
    pub fn undo(&mut self)
        ensures { self.new ≡ undone self.old }
    {
        if let Some(before) = self.before.take() {
            self.received.truncate(before.length);
            self.ended = before.ended;
            self.scanned = 0;
        }
    }
}

impl Reader {
    ghost use Rattle.std.specs.Prelude.{OnOk, OnErr};

    #[tactic(auto, using(crate::proofs::Periods::stays_scanned))]
    fn take_piece(&mut self, piece: &[u8]) -> Result<(), AllocError>
        ensures ok { OnOk result (self.new ≡ fed self.old piece.now) }
        ensures err { OnErr result (self.new ≡ unmarked self.old) }
        ensures ignored { is_open (verdict_by self.old.input) ≡ false → IsOk result }
    {
        let open = self.is_open();
        self.before = None;
        if !open {
            return Ok(());
        }
        let length = self.received.len();
        self.received.extend_from_slice(piece)?;
        self.scanned = scan_data(&self.received, self.scanned);
        self.before = Some(Before {
            length,
            ended: self.ended,
        });
        Ok(())
    }

    fn take_end(&mut self)
        ensures { self.new ≡ finished self.old }
    {
        let open = self.is_open();
        self.before = None;
        if open {
            self.before = Some(Before {
                length: self.received.len(),
                ended: self.ended,
            });
            self.ended = true;
        }
    }
}
