//! What a thread looks after while sessions are served: that none holds others up for ever, and that a server which is to stop does.

use crate::ending::DoneSignal;
use crate::operating::EndSignal;
use crate::service::{Service, elapsed};
use mlt_serve_connections::{Cut, Note, Patience};
use mlt_types::Pseudo;
use mlt_work_desk::MadeWith;
use mlt_work_waits::tuning::{
    LOOKS_FOR_QUEUE, LOOKS_FOR_THREADS, STOP_SECONDS, SUPERVISION_MILLISECONDS,
};
use std::sync::Wait;
use std::sync::atomic::Ordering;
use std::time::{Clock, Duration, Instant};

/// What one that looks after sessions knows.
#[derive(Drop)]
struct Supervisor<'a, 'b, 'c, P: Pseudo, L: MadeWith<P>, R: Wait + Clock> {
    rt: &'a R,
    service: &'b Service<'c, P, L>,
    patience: Patience,
    /// Since when the server is to stop, if it is, and the clock can say so.
    stops_since: Option<Instant>,
    /// In how many more looks session threads may still begin.
    looks_for_threads: u32,
    /// Which of the warnings it has told.
    has_told: [bool; 6],
    /// For how many looks clients have waited for a session thread, and none was taken.
    looks_without_take: u32,
    /// How many were taken at the last look.
    taken: u64,
}

/// Looks after the sessions again and again, until there is nothing left to do.
pub(crate) fn supervise<P: Pseudo, L: MadeWith<P>, R: Wait + Clock, S: EndSignal + Drop>(
    rt: &R,
    service: &Service<'_, P, L>,
    ending: &DoneSignal,
    mut signal: S,
) {
    let mut supervisor = Supervisor {
        rt,
        service,
        patience: Patience {
            wait: service.options.wait,
            open: service.options.open,
        },
        stops_since: None,
        looks_for_threads: LOOKS_FOR_THREADS,
        has_told: [false; 6],
        looks_without_take: 0,
        taken: 0,
    };
    for _ in rt.forever() {
        if signal.is_given() {
            service.door.stop();
        }
        if ending.sleep(rt, Duration::from_millis(SUPERVISION_MILLISECONDS)) {
            return;
        }
        supervisor.look();
    }
}

impl<P: Pseudo, L: MadeWith<P>, R: Wait + Clock> Supervisor<'_, '_, '_, P, L, R> {
    /// One look after all sessions.
    fn look(&mut self) {
        if self.service.door.stops() {
            self.press();
        }
        self.look_after_sessions();
        self.count_threads();
        self.look_after_queue();
        self.warn();
    }

    /// Each session that is cut, or waits for too long, goes on to its end.
    fn look_after_sessions(&self) {
        for seat in self.service.seats.all() {
            if let Some(tx) = seat.look_after(self.rt, &self.patience) {
                self.service.shared.wake_waiter(self.rt, tx);
            }
        }
    }

    /// Tells where clients have waited for a session thread for a second, and none was taken meanwhile.
    fn look_after_queue(&mut self) {
        let queued = self.service.queued();
        let taken = self.service.door.taken();
        self.looks_without_take = if queued > 0 && taken == self.taken {
            self.looks_without_take.saturating_add(1)
        } else {
            0
        };
        self.taken = taken;
        if self.looks_without_take == LOOKS_FOR_QUEUE && self.service.lobby.is_some() {
            self.service.notes.tell(self.rt, Note::ClientsWait(queued));
        }
    }

    /// The server is to stop: sessions hear nothing more from their clients. Those that go on for too long are cut.
    fn press(&mut self) {
        let now = Instant::now(self.rt).ok();
        self.stops_since = self.stops_since.or(now);
        let is_late = elapsed(self.stops_since, now).is_none_or(|time| time
            >= Duration::from_secs(STOP_SECONDS));
        for seat in self.service.seats.all() {
            if is_late {
                seat.cut(self.rt, None, Cut::Stop);
            } else {
                seat.hear_no_more(self.rt);
            }
        }
    }

    /// Tells once where fewer threads run than were asked for, and none of them is only late.
    fn count_threads(&mut self) {
        if self.looks_for_threads == 0 || self.service.is_loading.load(Ordering::SeqCst) {
            return;
        }
        let running = self.service.running.load(Ordering::SeqCst);
        let asked = self.service.options.sessions as u64;
        self.looks_for_threads = if running < asked {
            self.looks_for_threads.saturating_sub(1)
        } else {
            0
        };
        if running < asked && self.looks_for_threads == 0 {
            self.service
                .notes
                .tell(self.rt, Note::FewThreads(running, asked));
        }
    }

    /// Tells once where nine in ten of the numbers are given out, or of the pages are used, where an operation was refused for want of
    /// room, or of memory, or a begin since all numbers are used, and of the first of these where the directory is as deep as it may be.
    fn warn(&mut self) {
        let totals = self.service.seats.totals(self.rt);
        let statistics = self.service.shared.statistics(self.rt);
        let options = self.service.options;
        let (begun, most_begun) = (totals.begun, options.limits.max_ids);
        let (pages, most_pages) = (statistics.pages as u64, options.most_pages());
        let (depth, most_depth) = (
            u64::from(statistics.depth),
            u64::from(options.limits.max_depth),
        );
        let is_full = totals.no_room > 0;
        let warnings = [
            (
                is_nearly(begun, most_begun),
                Note::FewNumbersLeft(begun, most_begun),
            ),
            (
                is_nearly(pages, most_pages),
                Note::FewPagesLeft(pages, most_pages),
            ),
            (
                is_full && depth >= most_depth,
                Note::DeepestDirectory(most_depth),
            ),
            (is_full, Note::NoRoom),
            (totals.no_memory > 0, Note::NoMemory),
            (totals.no_number > 0, Note::NoNumber),
        ];
        for (has_told, (is_so, note)) in self.has_told.iter_mut().zip(warnings) {
            if is_so && !*has_told {
                *has_told = true;
                self.service.notes.tell(self.rt, note);
            }
        }
    }
}

/// Whether so many are nine in ten of the most, or more.
fn is_nearly(count: u64, most: u64) -> bool {
    count >= most - most / 10
}
