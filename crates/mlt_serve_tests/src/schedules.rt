//! Schedules within other limits than those of the program, and the number of pages, which it doesn't print.

use crate::bounds::{Bounds, limits_of};
use mlt_manager_steps::steps;
use mlt_test_tools::same_at;
use mlt_types::Low;
use std::test::Fail;

/// Events for a manager with such limits, what is written of them, and how many pages there are then.
struct EventRows {
    name: &'static str,
    bounds: Bounds,
    events: &'static str,
    text: &'static str,
    pages: usize,
}

const SCHEDULES: &[EventRows] = &[
    EventRows {
        name: "refusals-in-order",
        bounds: (2, 3, 70_000, 16, 1),
        events: "begin\nbegin\nbegin\ncommit 9\nstep 1\n\
call 1 up 7 1\ncall 1 read 7\ncommit 1\ncancel 1\ncancel 1\nwhole 1 up 7 1\ncall 1 read 7\n\
abort 1\ncommit 1\ncall 1 read 7\ncancel 1\nundo 1\nstep 1\n\
begin\nbegin\ncommit 2\nundo 3\nbegin\nabort 3\n",
        text: "begun 1\nbegun 2\nrefused 7 TooManyOpen\nrefused 3 NoSuchTx\nrefused 6 NotRunning\n\
called\nrefused 5 Running\nrefused 5 Running\ncancelled\nrefused 6 NotRunning\ndone done\nrefused 8 LogFull\n\
aborting\nrefused 4 Undoing\nrefused 4 Undoing\nrefused 4 Undoing\naborted\nrefused 3 NoSuchTx\n\
begun 3\nrefused 7 TooManyOpen\ncommitted 1\nrefused 6 NotRunning\nrefused 9 IdsSpent\naborted\ndepth 0\n",
        pages: 3,
    },
    EventRows {
        name: "thirteen-splits",
        bounds: (64, 1 << 32, 70_000, 8, 1_024),
        events: "begin\nwhole 1 open 0\nwhole 1 open 1\nwhole 1 open 2\nwhole 1 open 3\n\
whole 1 open 4\nwhole 1 open 5\nwhole 1 open 6\nwhole 1 open 7\ncommit 1\nbegin\nwhole 2 open 8\n",
        text: "begun 1\ndone opened\ndone opened\ndone opened\ndone opened\n\
done opened\ndone opened\ndone opened\ndone opened\ncommitted 1\nbegun 2\nrefused 2 NoRoom\n\
account 0 0\naccount 1 0\naccount 2 0\naccount 3 0\naccount 4 0\naccount 5 0\naccount 6 0\naccount 7 0\n\
depth 0\n",
        pages: 3,
    },
    // The steps of the split stand in `tests/schedules.py`.
    EventRows {
        name: "thirteen-splits-by-steps",
        bounds: (64, 1 << 32, 70_000, 16, 1_024),
        events: "begin\nwhole 1 open 0\nwhole 1 open 1\nwhole 1 open 2\nwhole 1 open 3\n\
whole 1 open 4\nwhole 1 open 5\nwhole 1 open 6\nwhole 1 open 7\ncommit 1\nbegin\nwhole 2 open 8\n",
        text: "begun 1\ndone opened\ndone opened\ndone opened\ndone opened\n\
done opened\ndone opened\ndone opened\ndone opened\ncommitted 1\nbegun 2\ndone opened\n\
account 0 0\naccount 1 0\naccount 2 0\naccount 3 0\naccount 4 0\naccount 5 0\naccount 6 0\naccount 7 0\n\
depth 13\n",
        pages: 47,
    },
    EventRows {
        name: "no-room-for-pages",
        bounds: (64, 1 << 32, 3, 16, 1_024),
        events: "begin\nwhole 1 open 0\nwhole 1 open 1\nwhole 1 open 2\nwhole 1 open 3\n\
whole 1 open 4\nwhole 1 open 5\nwhole 1 open 6\nwhole 1 open 7\ncommit 1\nbegin\n\
whole 2 open 32768\nwhole 2 balance 7\n",
        text: "begun 1\ndone opened\ndone opened\ndone opened\ndone opened\n\
done opened\ndone opened\ndone opened\ndone opened\ncommitted 1\nbegun 2\n\
refused 2 NoRoom\ndone is 0\n\
account 0 0\naccount 1 0\naccount 2 0\naccount 3 0\naccount 4 0\naccount 5 0\naccount 6 0\naccount 7 0\n\
depth 0\n",
        pages: 3,
    },
];

#[test]
fn schedules(rt: HostRuntime) -> Result<(), Fail> {
    for schedule in SCHEDULES {
        let mut events = schedule.events.as_bytes();
        let mut text = Vec::new(rt.alloc());
        let limits = limits_of(schedule.bounds)?;
        let manager = steps(rt.alloc(), &mut events, &mut text, limits, Low, false)?;
        let pages = manager.pages().len();
        manager.close();
        let found = (text.as_slice(), pages);
        same_at(
            &schedule.name,
            &found,
            &(schedule.text.as_bytes(), schedule.pages),
        )?;
    }
    Ok(())
}
