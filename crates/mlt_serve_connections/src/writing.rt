//! Lines of notes.

use crate::note::NOTE_KINDS;
use crate::notes::{Outlet, TimedNote};
use crossbeam_channel::RecvTimeoutError;
use httpdate::HttpDate;
use mlt_text::write_text;
use mlt_work_waits::tuning::MOST_NOTES_IN_A_SECOND;
use std::alloc::{AllocError, Global};
use std::io::Write;
use std::sync::Wait;
use std::sync::atomic::Ordering;
use std::time::Clock;

/// How many notes of each kind came in one second.
#[derive(Default, Drop)]
struct NoteRate {
    second: Option<u64>,
    come: [u64; NOTE_KINDS],
}

impl NoteRate {
    /// Counts a note, and returns how many of its kind have come in its second. Where no clock tells the time it is the first.
    fn count(&mut self, told: &TimedNote) -> u64 {
        if told.seconds.is_none() || told.seconds != self.second {
            self.second = told.seconds;
            self.come = [0; NOTE_KINDS];
        }
        let come = &mut self.come[told.note.kind()];
        *come = come.saturating_add(1);
        *come
    }
}

/// Writes what is unsaid, and then a line for each note as it comes, but for no more than 50 of one kind in a second, until no more
/// follow. A line that can't be written is lost, as is one that memory is refused for. A line tells how many notes were lost, once a
/// second or so.
pub fn write_notes<R: Wait + Clock, W: Write>(
    rt: &R,
    alloc: Global,
    outlet: &Outlet,
    unsaid: &str,
    writer: &mut W,
) {
    let _ = write_text(writer, unsaid.as_bytes());
    let mut rate = NoteRate::default();
    for _ in rt.forever() {
        match outlet.next(rt) {
            Ok(told) => match rate.count(&told) {
                1 => {
                    write_lost(alloc, outlet, writer);
                    write_note(alloc, &told, writer);
                }
                count if count <= MOST_NOTES_IN_A_SECOND => write_note(alloc, &told, writer),
                _ => {
                    outlet.lost.fetch_add(1, Ordering::SeqCst);
                }
            },
            Err(why) => {
                write_lost(alloc, outlet, writer);
                if why == RecvTimeoutError::Disconnected {
                    return;
                }
            }
        }
    }
}

fn write_note<W: Write>(alloc: Global, told: &TimedNote, writer: &mut W) {
    if let Ok(line) = line_of(alloc, told) {
        // There is no way left to say that this note was lost.
        let _ = write_text(writer, line.as_bytes());
    }
}

/// Writes how many notes were lost, if any were.
fn write_lost<W: Write>(alloc: Global, outlet: &Outlet, writer: &mut W) {
    let lost = outlet.lost.swap(0, Ordering::SeqCst);
    if lost == 0 {
        return;
    }
    if let Ok(line) = format!(in alloc; "mltx: note {lost} messages were lost\n") {
        let _ = write_text(writer, line.as_bytes());
    }
}

/// The line of a note, with its time as HTTP writes it (RFC 9110, section 5.6.7), if it has one.
fn line_of(alloc: Global, told: &TimedNote) -> Result<String, AllocError> {
    let note = &told.note;
    match told.seconds.map(HttpDate::from_unix_secs) {
        Some(Ok(date)) => format!(in alloc; "mltx: note {date}: {note}\n"),
        _ => format!(in alloc; "mltx: note {note}\n"),
    }
}
