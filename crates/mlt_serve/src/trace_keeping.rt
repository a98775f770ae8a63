//! A trace that is written as the server goes.

ghost use Rattle.std.specs.Prelude.{◌≡◌, ◌≤◌, ◌<◌, true, IfOk, OnOk, length, take};
ghost use Rattle.mlt_trace.specs.Lines.{AddsLines};
ghost use Rattle.mlt_serve.specs.TraceLines.{WritesLines};

use crate::ending::DoneSignal;
use crate::operating::TraceFile;
use crate::service::Service;
use crossbeam_channel::{Receiver, RecvTimeoutError, Sender};
use mlt_serve_connections::Note;
use mlt_trace::{KeptItem, write_block};
use mlt_types::{Pseudo, Refusal};
use mlt_work_desk::MadeWith;
use mlt_work_waits::tuning::{
    ITEMS_PER_HOLD, LATE_SECONDS, LEAST_PAUSE_MILLISECONDS, MANY_ITEMS, MOST_WAITING_ITEMS,
    SUPERVISION_MILLISECONDS,
};
use std::alloc::{AllocError, Global};
use std::io::{ErrorKind, Write};
use std::sync::atomic::{AtomicU64, Ordering};
use std::sync::{Arc, Mutex, Wait};
use std::thread::Threads;
use std::time::{Clock, Duration};
use std::{io, mem, thread};

/// A file, how many bytes and how many blocks it took, and why its last call that failed did.
#[derive(Drop)]
struct Counting<T> {
    file: T,
    bytes: u64,
    blocks: Arc<AtomicU64>,
    failed: Option<io::Error>,
}

impl<T: Write> Write for Counting<T> {
    ghost contents = { λ counting. T.contents counting.file };

    fn write(&mut self, buf: &[u8]) -> io::Result<usize> {
        let told = self.file.write(buf);
        match &told {
            Ok(count) => self.bytes = self.bytes.saturating_add(*count as u64),
            Err(error) => self.failed = Some(*error),
        }
        told
    }

    fn flush(&mut self) -> io::Result<()> {
        let told = self.file.flush();
        if let Err(error) = told {
            self.failed = Some(error);
        }
        told
    }
}

/// A list of items that was to be written, and why it was not, if so.
#[derive(Drop)]
struct Written {
    items: Vec<KeptItem>,
    failed: Option<io::Error>,
}

/// The thread that writes the trace, for the one that keeps it. No thread joins it: a thread in a write can't be called back.
#[derive(Drop)]
struct TraceWriter {
    to: Sender<Vec<KeptItem>, Global>,
    from: Receiver<Written, Global>,
    /// How many blocks it has written.
    blocks: Arc<AtomicU64>,
}

impl TraceWriter {
    /// A thread that writes into this file.
    ///
    /// # Errors
    /// Where memory or the thread is refused.
    fn start<R, T>(rt: &R, alloc: Global, file: T) -> Result<TraceWriter, AllocError>
    where
        R: Threads + Wait + Clock + Sync + Send + Copy + 'static,
        T: TraceFile + Send + Drop + 'static,
    {
        let (to, lists) = crossbeam_channel::bounded(alloc, 1)?;
        let (written, from) = crossbeam_channel::bounded(alloc, 1)?;
        let blocks = Arc::new(alloc, AtomicU64::new(0))?;
        let mut file = Counting {
            file,
            bytes: 0,
            blocks: blocks.clone()?,
            failed: None,
        };
        let own = *rt;
        let write = move || write_lists(&own, &mut file, &lists, &written);
        thread::spawn(rt, write)?;
        Ok(TraceWriter { to, from, blocks })
    }
}

/// The trace so far, and what is about to be written of it.
#[derive(Drop)]
pub(crate) struct TraceKeeper<'a, 'b, P: Pseudo, L: MadeWith<P>> {
    /// The service whose trace it is. Items are taken out of the manager of an endless one. Else they are copied, and it keeps them.
    service: &'a Service<'b, P, L>,
    /// What writes it, if it is written.
    writer: Option<TraceWriter>,
    /// How many items of the history were written, where they are copied.
    items: usize,
    /// Items that are about to be.
    next: Vec<KeptItem>,
    /// Whether items were there that could not be taken, for want of memory.
    is_behind: bool,
    /// Why a write failed, if one did. Nothing is written then.
    failed: Option<io::Error>,
}

impl<'a, 'b, P: Pseudo, L: MadeWith<P>> TraceKeeper<'a, 'b, P, L> {
    /// One of this service, with a thread that writes into the file, if there is one. There is none where the history is neither written
    /// nor taken out of the manager.
    ///
    /// # Errors
    /// Where memory or the thread is refused.
    pub(crate) fn start<R, T>(
        rt: &R,
        alloc: Global,
        service: &'a Service<'b, P, L>,
        file: Option<T>,
    ) -> Result<Option<TraceKeeper<'a, 'b, P, L>>, AllocError>
    where
        R: Threads + Wait + Clock + Sync + Send + Copy + 'static,
        T: TraceFile + Send + Drop + 'static,
    {
        let writer = match file {
            Some(file) => Some(TraceWriter::start(rt, alloc, file)?),
            None if service.is_endless => None,
            None => return Ok(None),
        };
        Ok(Some(TraceKeeper {
            service,
            writer,
            items: 0,
            next: Vec::with_capacity(alloc, ITEMS_PER_HOLD)?,
            is_behind: false,
            failed: None,
        }))
    }

    /// Takes or copies what is new, and writes it, again and again, until there is nothing left to do; and then what is left. It
    /// tells there why the trace was not written whole, if so.
    pub(crate) fn keep_on<R: Wait + Clock>(
        mut self,
        rt: &R,
        alloc: Global,
        ending: &DoneSignal,
        failed: &Mutex<Option<io::Error>>,
    ) {
        let mut pause = SUPERVISION_MILLISECONDS;
        for _ in rt.forever() {
            let is_last = ending.sleep(rt, Duration::from_millis(pause));
            if self.service.is_endless {
                let taken = self.take_new(rt, alloc, ending);
                pause = pause_after(pause, taken);
            } else {
                self.catch_up(rt, alloc, ending);
            }
            if is_last {
                break;
            }
        }
        *failed.lock(rt) = self.failure();
    }

    /// Why the trace was not written whole, if so.
    fn failure(&self) -> Option<io::Error> {
        if self.writer.is_some() && self.is_behind {
            return self
                .failed
                .or(Some(io::Error::from(ErrorKind::OutOfMemory)));
        }
        self.failed
    }

    /// Takes all that is new out of the manager, in one hold of the lock, and writes it. The manager goes on in the memory of what was
    /// taken before, which is that of many items: what a long pause has made of it is given back, and it grows under the lock in none but
    /// such. Where a growth is refused nothing is taken, and nothing is lost. It answers how many items were taken.
    fn take_new<R: Wait + Clock>(&mut self, rt: &R, alloc: Global, ending: &DoneSignal) -> usize
        requires { L.hands_out ≡ true }
    {
        self.next.clear();
        self.next.shrink_to(MANY_ITEMS);
        self.is_behind = self.next.reserve(MANY_ITEMS).is_err()
            || self.service.shared.take_items(rt, &mut self.next).is_err();
        if self.is_behind {
            return 0;
        }
        let taken = self.next.len();
        self.write_next(rt, alloc, ending);
        taken
    }

    /// Copies all that is new, and writes it.
    fn catch_up<R: Wait + Clock>(&mut self, rt: &R, alloc: Global, ending: &DoneSignal) {
        for _ in rt.forever() {
            if self.failed.is_some() {
                return;
            }
            self.next.clear();
            // There is room for so many.
            let _ = self
                .service
                .shared
                .copy_items(rt, self.items, ITEMS_PER_HOLD, &mut self.next);
            if self.next.is_empty() {
                return;
            }
            self.items = self.items.saturating_add(self.next.len());
            self.write_next(rt, alloc, ending);
        }
    }

    /// Writes the items that are about to be, if they are written and no write has failed. A failure is logged.
    fn write_next<R: Wait + Clock>(&mut self, rt: &R, alloc: Global, ending: &DoneSignal) {
        if self.writer.is_none() || self.failed.is_some() || self.next.is_empty() {
            return;
        }
        let items = mem::replace(&mut self.next, Vec::new(alloc));
        match self.write(rt, items, ending) {
            Some(Written { items, failed }) => {
                self.next = items;
                self.failed = failed;
            }
            None => self.failed = Some(io::Error::from(ErrorKind::TimedOut)),
        }
        if let Some(error) = self.failed {
            self.service.notes.tell(rt, Note::TraceFailed(error));
        }
    }

    /// Gives the thread these items, and returns them once it has written them. A message tells where it writes no block for 5 seconds,
    /// or where so much waits meanwhile that no transaction begins, and one that it goes on. Once the server ends it has 5 seconds for
    /// each block.
    fn write<R: Wait + Clock>(
        &self,
        rt: &R,
        items: Vec<KeptItem>,
        ending: &DoneSignal,
    ) -> Option<Written> {
        let writer = self.writer.as_ref()?;
        // There is room for one list, and the thread has none.
        let _ = writer.to.try_send(rt, items);
        let mut watch = BlockWatch::default();
        let mut is_late = false;
        for _ in rt.forever() {
            let look = Duration::from_millis(SUPERVISION_MILLISECONDS);
            match writer.from.recv_timeout(rt, look) {
                Ok(written) => {
                    let refused = self.service.refuses_begins.swap(false, Ordering::SeqCst);
                    if (is_late || refused) && written.failed.is_none() {
                        self.service.notes.tell(rt, Note::TraceGoesOn);
                    }
                    return Some(written);
                }
                Err(RecvTimeoutError::Disconnected) => return None,
                Err(RecvTimeoutError::Timeout) => (),
            }
            let is_over = ending.sleep(rt, Duration::ZERO);
            let lasts = watch.look(writer.blocks.load(Ordering::SeqCst), is_over);
            if is_over && lasts {
                return None;
            }
            if !is_over {
                self.warn(rt, is_late, lasts);
                is_late = lasts;
            }
        }
        None
    }

    /// Tells what is new of a block that is late or not, and was so at the look before. Where too much waits no transaction begins from
    /// now on, but those of the base that is loaded.
    fn warn<R: Wait + Clock>(&self, rt: &R, was_late: bool, is_late: bool) {
        let service = self.service;
        let refuses = service.refuses_begins.load(Ordering::SeqCst);
        if is_late && !was_late {
            service.notes.tell(rt, Note::TraceWaits(LATE_SECONDS));
        }
        if was_late && !is_late && !refuses {
            service.notes.tell(rt, Note::TraceGoesOn);
        }
        let waiting = service.shared.statistics(rt).items as u64;
        let may_refuse = service.is_endless && !service.is_loading.load(Ordering::SeqCst);
        if may_refuse && !refuses && waiting >= MOST_WAITING_ITEMS {
            service.refuses_begins.store(true, Ordering::SeqCst);
            service.notes.tell(rt, Note::BeginsRefused(waiting));
        }
    }
}

/// How many blocks were written, whether the server ends, and at how many looks in a row it was so.
#[derive(Default, Drop)]
struct BlockWatch {
    blocks: u64,
    is_over: bool,
    looks: u64,
}

impl BlockWatch {
    /// One more look. It returns whether it has been so for 5 seconds.
    fn look(&mut self, blocks: u64, is_over: bool) -> bool {
        if blocks != self.blocks || is_over != self.is_over {
            self.looks = 0;
        }
        self.blocks = blocks;
        self.is_over = is_over;
        self.looks = self.looks.saturating_add(1);
        self.looks.saturating_mul(SUPERVISION_MILLISECONDS) >= LATE_SECONDS * 1_000
    }
}

/// Writes each list that comes, until none follows, and gives it back.
fn write_lists<R: Wait, T: TraceFile>(
    rt: &R,
    file: &mut Counting<T>,
    lists: &Receiver<Vec<KeptItem>, Global>,
    written: &Sender<Written, Global>,
) {
    for _ in rt.forever() {
        let Ok(items) = lists.recv(rt) else {
            return;
        };
        let failed = match write_lines(file, items.as_slice()) {
            Ok(()) => None,
            Err(_) => file.failed.or(Some(io::Error::from(ErrorKind::WriteZero))),
        };
        if written.send(rt, Written { items, failed }).is_err() {
            return;
        }
    }
}

/// After how many milliseconds what is new is taken again, where so many items were there after this pause: sooner where these were
/// many, and later again where they were few.
fn pause_after(pause: u64, taken: usize) -> u64 {
    if taken > MANY_ITEMS {
        (pause / 2).max(LEAST_PAUSE_MILLISECONDS)
    } else if taken < MANY_ITEMS / 4 {
        pause.saturating_mul(2).min(SUPERVISION_MILLISECONDS)
    } else {
        pause
    }
}

/// Writes lines of these items, block by block. Where that fails the file keeps whole lines, as far as it can be cut.
fn write_lines<T: TraceFile>(file: &mut Counting<T>, items: &[KeptItem]) -> Result<(), Refusal>
    ensures lines { OnOk result
        (WritesLines items.now (T.contents file.old.file) (T.contents file.new.file)) }
{
    let mut rest = items;
    while !rest.is_empty() {
        let count = write_next_block(file, rest)?;
        file.blocks.fetch_add(1, Ordering::SeqCst);
        rest = rest.split_at(count).1;
    }
    Ok(())
}

/// Writes lines of the first of these items, up to the end of a block, and answers of how many. Where that fails the file keeps what it
/// had, as far as it can be cut.
fn write_next_block<T: TraceFile>(
    file: &mut Counting<T>,
    items: &[KeptItem],
) -> Result<usize, Refusal>
    ensures count { IfOk result (λ count. count ≤ length items.now) }
    ensures some { IfOk result (λ count. 0 < length items.now → 0 < count) }
    ensures lines { IfOk result (λ count. AddsLines file.old.bytes (take count items.now)
        (T.contents file.old.file) (T.contents file.new.file)) }
{
    let before = file.bytes;
    match write_block(items, before, file) {
        Ok(count) => Ok(count),
        Err(refusal) => {
            // It can't be cut where it is no file on a disk.
            let _ = file.file.take_back(file.bytes.saturating_sub(before));
            Err(refusal)
        }
    }
}
