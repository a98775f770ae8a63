//! What all session threads have served, put together.

ghost use Rattle.std.specs.Prelude.{◌≡◌, ◌+◌, ◌-◌, ◌*◌, ◌^◌, ◌≤◌, ◌++◌, [], IfErr, IfOk, IsPermutation, OnOk, false, min, vec_len};
ghost use Rattle.mlt_work_desk.specs.LogHandles.{IsOf, IsWriterOf, begun_by, id_of, past_of};
ghost use Rattle.mlt_serve.specs.Clients.{AreOfClients};
ghost use Rattle.mlt_serve.specs.Desks.{AreGiven};
ghost use Rattle.mlt_serve.specs.Endings.{HasAccepted, IsOfServer, IsRefusedFor};
ghost use Rattle.mlt_serve.specs.Tellings.{HasBegunAll, HaveBegun, TellsOutcomes};
ghost use Rattle.mlt_serve.specs.Threads.{AllHaveMemory, all_outcomes};

use crate::accepting::Accepting;
use crate::session_thread::SessionThread;
use mlt_serve_session::Receipts;
use mlt_types::{Pseudo, Refusal};
use mlt_work_desk::{HistoryLog, LogSnapshot, LogWriter, MadeWith, Unlocked};
use std::alloc::{AllocError, Global};
use std::sync::ledger::Share;

/// So many session threads that have served nothing yet, each with two parts of the ledger.
///
/// # Errors
/// Where a growth is refused.
pub(crate) fn new_threads<P: Pseudo, L: MadeWith<P>, K: Receipts + Drop>(
    alloc: Global,
    all: &mut Share<L>,
    log: &HistoryLog,
    writer: &mut LogWriter,
    sessions: usize,
) -> Result<Vec<SessionThread<P, L, K>>, AllocError>
    requires most { sessions ≤ 64 }
    requires parts { all.old.parts ≡ 131 }
    requires amount { all.old.amount ≡ 0 }
    requires log { id_of log.now ≡ L.log_id }
    requires writer { IsWriterOf L.log_id writer.old }
    ensures writer { IsWriterOf L.log_id writer.new }
    ensures past { past_of writer.new ≡ past_of writer.old }
    ensures len { IfOk result (λ threads. vec_len threads ≡ sessions) }
    ensures parts { IfOk result (λ _. all.new.parts + 2 * sessions ≡ 131) }
    ensures amount { IfOk result (λ _. all.new.amount ≡ 0) }
{
    let mut threads = Vec::with_capacity(alloc, sessions)?;
    for _ in 0..sessions {
        threads.push(SessionThread::new(alloc, all, log, writer))?;
    }
    Ok(threads)
}

/// What all sessions have done.
#[derive(Drop)]
pub(crate) struct Gathered<K: Receipts> {
    /// Who has taken the outcomes of all sessions.
    pub(crate) outcomes: K,
    /// The number of their events; it stays at 2^64 - 1.
    pub(crate) events: u64,
    /// How many connections were served.
    pub(crate) connections: u64,
    /// The greatest number of a connection that was served, 0 where there is none.
    pub(crate) last: u32,
    /// Whether a growth was refused. Outcomes may be missing then.
    pub(crate) is_short: bool,
}

impl<K: Receipts + Drop> Gathered<K> {
    #[tactic(auto, using(crate::proofs::Numbering::none_of))]
    fn new(alloc: Global) -> Gathered<K>
        ensures events { result.events ≡ 0 }
        ensures outcomes { K.receipts result.outcomes ≡ [] }
        ensures clients { AreOfClients result.last (K.receipts result.outcomes) }
    {
        Gathered {
            outcomes: K::none(alloc),
            events: 0,
            connections: 0,
            last: 0,
            is_short: false,
        }
    }

    /// Takes in what one thread has served, the whole its share, and the snapshot what its desks have begun. The manager's history tells
    /// all that is in the outcomes.
    #[tactic(auto, using(crate::proofs::Numbering::gathered, crate::proofs::Receiving::both_given))]
    fn take_in<P: Pseudo, L: MadeWith<P>>(
        &mut self,
        all: &mut Share<L>,
        thread: SessionThread<P, L, K>,
        desks: &mut Unlocked<P, L>,
        begun: &mut LogSnapshot,
    )
        requires events { self.old.events ≡ min all.old.amount (2 ^ 64 - 1) }
        requires of_log { IsOf L.log_id begun.old }
        ensures of_log { IsOf L.log_id begun.new }
        ensures begun { self.new.is_short ≡ false
            → HasBegunAll (K.receipts self.old.outcomes) (begun_by begun.old)
            → HasBegunAll (K.receipts self.new.outcomes) (begun_by begun.new) }
        ensures events { self.new.events ≡ min all.new.amount (2 ^ 64 - 1) }
        ensures parts { all.new.parts ≡ all.old.parts + 2 }
        ensures outcomes { self.new.is_short ≡ false
            → IsPermutation (K.receipts self.old.outcomes ++ K.receipts thread.outcomes)
            (K.receipts self.new.outcomes) }
        ensures clients { self.new.is_short ≡ false
            → AreOfClients self.old.last (K.receipts self.old.outcomes)
            → AreOfClients self.new.last (K.receipts self.new.outcomes) }
        ensures given { self.new.is_short ≡ false
            → AreGiven P.bits_of L.tries (K.receipts self.old.outcomes)
            → AreGiven P.bits_of L.tries (K.receipts self.new.outcomes) }
        ensures manager { desks.new.state.manager ≡ desks.old.state.manager }
        ensures told { self.new.is_short ≡ false
            → TellsOutcomes desks.old.state.manager.shared.history.items
            (K.receipts self.old.outcomes)
            → TellsOutcomes desks.old.state.manager.shared.history.items
            (K.receipts self.new.outcomes) }
        ensures short { self.new.is_short ≡ false
            → (self.old.is_short ≡ false) × (thread.is_short ≡ false) }
    {
        desks.compare(thread.snapshot, begun);
        all.merge(thread.share);
        self.events = self.events.saturating_add(thread.events);
        self.connections = self.connections.saturating_add(thread.connections);
        self.last = self.last.max(thread.last);
        let refused = self.outcomes.take_in(thread.outcomes).is_err();
        self.is_short = self.is_short || thread.is_short || refused;
    }

    /// How many connections were served, where these are those that have loaded the base and all that were accepted.
    ///
    /// # Errors
    /// Why the accepting ended by a fault; else `OutOfMemory`, where a growth was refused; else `Audit`, where not as many connections
    /// were served, or more were accepted than the limit says, or fewer where it ended by that.
    pub(crate) fn served(
        &self,
        accepting: Accepting,
        loaded: u32,
        limit: u64,
    ) -> Result<u64, Refusal>
        ensures all { IfOk result (λ count. count ≡ loaded + accepting.connections) }
        ensures served { IfOk result (λ count. self.now.connections ≡ count) }
        ensures ended { IfOk result
            (λ _. HasAccepted limit accepting.connections accepting.end) }
        ensures whole { OnOk result (self.now.is_short ≡ false) }
        ensures why { IsRefusedFor accepting.end self.now.is_short result }
        ensures refusal { IfErr result IsOfServer }
    {
        accepting.result()?;
        if self.is_short {
            return Err(Refusal::OutOfMemory);
        }
        match accepting.connections.checked_add(u64::from(loaded)) {
            Some(count) if accepting.is_within(limit) && self.connections == count => Ok(count),
            _ => Err(Refusal::Audit),
        }
    }
}

/// Takes in what the loader and all threads have served, and the whole their shares. Unless a growth was refused, no outcome is missing.
/// The manager's history tells all that is in the outcomes, and has a begin for each.
#[tactic(auto, using(crate::proofs::Receiving::none_given))]
pub(crate) fn gather<P: Pseudo, L: MadeWith<P>, K: Receipts + Drop>(
    alloc: Global,
    all: &mut Share<L>,
    loader: SessionThread<P, L, K>,
    threads: Vec<SessionThread<P, L, K>>,
    desks: &mut Unlocked<P, L>,
) -> Gathered<K>
    requires parts { all.old.parts + 2 + 2 * vec_len threads ≡ 131 }
    requires amount { all.old.amount ≡ 0 }
    ensures parts { all.new.parts ≡ 131 }
    ensures events { result.events ≡ min all.new.amount (2 ^ 64 - 1) }
    ensures outcomes { result.is_short ≡ false
        → IsPermutation (all_outcomes threads.items ++ K.receipts loader.outcomes)
        (K.receipts result.outcomes) }
    ensures clients { result.is_short ≡ false
        → AreOfClients result.last (K.receipts result.outcomes) }
    ensures given { result.is_short ≡ false
        → AreGiven P.bits_of L.tries (K.receipts result.outcomes) }
    ensures manager { desks.new.state.manager ≡ desks.old.state.manager }
    ensures told { result.is_short ≡ false
        → TellsOutcomes desks.old.state.manager.shared.history.items
        (K.receipts result.outcomes) }
    ensures begun { result.is_short ≡ false
        → HaveBegun desks.old.state.manager.shared.history.items
        (K.receipts result.outcomes) }
    ensures short { result.is_short ≡ false
        → (loader.is_short ≡ false) × AllHaveMemory threads.items }
{
    let mut rest = threads;
    let mut gathered = Gathered::new(alloc);
    let mut begun = desks.snapshot();
    while let Some(thread) = rest.pop() {
        gathered.take_in(all, thread, desks, &mut begun);
    }
    gathered.take_in(all, loader, desks, &mut begun);
    desks.count(begun);
    gathered
}
