//! Noting what a session was told.

ghost use Rattle.std.specs.Prelude.{◌≡◌, ◌<◌, ◌+◌, ◌^◌, [], ◌∷◌, ◌++◌, ℕ, None, Some};
ghost use Rattle.mlt_serve_session.specs.Noting.{outcomes_in};
ghost use Rattle.mlt_serve_session.specs.Outcomes.{outcome_of};
ghost use Rattle.mlt_serve_session.specs.Talks.{ends, is_long};
ghost use Rattle.mlt_serve_session.specs.Turns.{after_line, start};

use crate::notes::{SessionProgress, SessionRecord};
use crate::receipts::{EndedTx, Receipts};
use mlt_event_text::{Command, SessionLine};
use mlt_script_serial::End;
use mlt_types::TxId;
use std::alloc::Global;

fn ends(line: SessionLine) -> bool
    ensures { result ≡ ends line }
{
    matches!(
        line,
        SessionLine::Says(Command::Quit) | SessionLine::TooLong
    )
}

fn is_long(line: SessionLine) -> bool
    ensures { result ≡ is_long line }
{
    matches!(line, SessionLine::TooLong)
}

impl<K: Receipts> SessionRecord<K> {
    /// A session of which nothing was read, behind these outcomes. Takes no memory.
    pub fn new(alloc: Global, outcomes: K) -> SessionRecord<K>
        ensures progress { result.progress ≡ start }
        ensures outcomes { K.receipts result.outcomes ≡ K.receipts outcomes }
    {
        SessionRecord {
            progress: SessionProgress {
                tx: None,
                lines: 0,
                commits: 0,
                begun: 0,
                over: false,
                long: false,
            },
            done: Vec::new(alloc),
            outcomes,
            alloc,
        }
    }

    /// Notes that a transaction began, which is open now. There is room for its outcome.
    pub fn open(&mut self, tx: TxId)
        requires room { 0 < K.room self.old.outcomes }
        requires small { self.old.progress.begun < 2 ^ 62 }
        ensures progress { self.new.progress
            ≡ record self.old.progress { tx = Some tx; begun = self.old.progress.begun + 1 } }
        ensures outcomes { K.receipts self.new.outcomes ≡ K.receipts self.old.outcomes }
        ensures done { self.new.done.items ≡ [] }
    {
        self.done.clear();
        self.progress.tx = Some(tx);
        self.progress.begun += 1;
    }

    /// Notes how the open transaction ended: its outcome stands behind the others now.
    pub fn close(&mut self, client: u32, tx: TxId, end: End)
        requires is_open { self.old.progress.tx ≡ Some tx }
        ensures progress { self.new.progress ≡ record self.old.progress { tx = None } }
        ensures outcomes { K.receipts self.new.outcomes ≡ K.receipts self.old.outcomes
            ++ outcome_of client self.old.progress.begun tx self.old.done.items end ∷ [] }
    {
        let ended = EndedTx {
            client,
            number: self.progress.begun,
            tx,
            end,
        };
        self.outcomes.put(self.alloc, ended, &mut self.done);
        self.progress.tx = None;
    }

    /// Notes that the line was answered.
    pub fn note_answered(&mut self, line: SessionLine)
        requires small { self.old.progress.lines < 2 ^ 62 }
        ensures progress { self.new.progress ≡ after_line self.old.progress line }
        ensures outcomes { (client : ℕ)
            → outcomes_in client self.new ≡ outcomes_in client self.old }
    {
        self.progress.lines += 1;
        self.progress.over = ends(line);
        self.progress.long = is_long(line);
    }
}
