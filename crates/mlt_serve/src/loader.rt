//! The base that a server begins with, which sessions make before any client is served.

ghost use Rattle.std.specs.Prelude.{◌≡◌, ◌≤◌, ◌++◌, [], List, IfSome, OnSome, Some, length, true};
ghost use Rattle.mlt_script_serial.specs.declared.outcome.Outcome.{Outcome};
ghost use Rattle.mlt_serve.specs.Loads.{AreHeard, IsHeard};

use crate::door::Door;
use crate::operating::{BaseSource, LoadFailure, Piece};
use crate::service::Service;
use crate::session_thread::SessionThread;
use mlt_serve_session::{LineSource, Receipts};
use mlt_types::Pseudo;
use mlt_work_desk::MadeWith;
use std::alloc::Global;
use std::io;
use std::io::{ErrorKind, Read};
use std::sync::Wait;
use std::time::Clock;

/// The lines of a piece. No more of them are read once the server is to stop.
#[derive(Drop)]
struct PieceLines<'a> {
    lines: &'a [u8],
    door: &'a Door<'a>,
}

impl Read for PieceLines<'_> {
    ghost remaining = { λ reader. Some reader.lines.now };

    fn read(&mut self, buf: &mut [u8]) -> io::Result<usize> {
        if self.door.stops() {
            return Err(ErrorKind::Other.into());
        }
        self.lines.read(buf)
    }
}

impl LineSource for PieceLines<'_> {
    fn pause(&mut self, _held: &[u8]) {}
}

impl<P: Pseudo, L: MadeWith<P>, K: Receipts + Drop> SessionThread<P, L, K> {
    /// Loads a base: each piece is heard by a connection of its own, and these have the numbers 1, 2, 3 and so on. It answers how many
    /// they are, if all lines were heard, and answered as the base says.
    pub(crate) fn load<R: Wait + Clock, B: BaseSource>(
        &mut self,
        rt: &R,
        alloc: Global,
        service: &Service<'_, P, L>,
        base: &mut B,
    ) -> Option<u32>
        requires fresh { K.receipts self.old.outcomes ≡ [] }
        requires base { B.given base.old ≡ [] }
        ensures heard { OnSome result
            (AreHeard 1 (B.given base.new) (K.receipts self.new.outcomes)) }
        ensures over { OnSome result (B.is_over base.new ≡ true) }
        ensures count { IfSome result (λ count. count ≡ length (B.given base.new)) }
    {
        let mut count: u32 = 0;
        for _ in rt.forever() {
            let piece = match base.next(alloc) {
                Ok(Some(piece)) => piece,
                Ok(None) => return Some(count),
                Err(_) => return None,
            };
            let Some(client) = count.checked_add(1) else {
                base.fail(LoadFailure::Long);
                return None;
            };
            let mut answers = Vec::new(alloc);
            if !self.hear(rt, alloc, service, client, &piece, &mut answers) {
                base.fail(failure_of(service.door, &piece, answers.as_slice()));
                return None;
            }
            count = client;
        }
        unreachable!()
    }

    /// Hears a piece as this connection. It answers whether all lines of it were heard, and answered as it says; the answers are there.
    fn hear<R: Wait + Clock>(
        &mut self,
        rt: &R,
        alloc: Global,
        service: &Service<'_, P, L>,
        client: u32,
        piece: &Piece,
        answers: &mut Vec<u8>,
    ) -> bool
        requires client { 1 ≤ client }
        requires none { answers.old.items ≡ [] }
        ensures { result ≡ true → (own : List Outcome)
            × IsHeard client piece.now.lines.items piece.now.answers.items own
            × (K.receipts self.new.outcomes ≡ K.receipts self.old.outcomes ++ own) }
    {
        let admission = service.loading(rt);
        let mut reader = PieceLines {
            lines: piece.lines.as_slice(),
            door: service.door,
        };
        let ended = self.serve(
            rt,
            alloc,
            service,
            &admission,
            client,
            &mut None,
            &mut reader,
            answers,
        );
        admission.close();
        self.connections = self.connections.saturating_add(1);
        if ended.is_err() {
            return false;
        }
        reader.lines.is_empty() && answers.as_slice() == piece.answers.as_slice()
    }
}

/// Why a piece was not made that was answered so.
fn failure_of<'a>(door: &Door<'_>, piece: &'a Piece, answers: &'a [u8]) -> LoadFailure<'a> {
    if door.stops() {
        LoadFailure::Stopped
    } else {
        LoadFailure::Answered(piece, answers)
    }
}
