//! Of what build the program is, and what the system says of its process.

use crate::metrics::{Seconds, push_head};
use libc::RLIMIT_NOFILE;
use libc::types::rlimit;
use std::alloc::AllocError;
use std::fmt::{self, Display};
use std::fs::File;
use std::os::unix::fs::FileExt;

// The units in which Linux tells times and memory on x86-64.
const MICROSECONDS_PER_TICK: u64 = 10_000;

const BYTES_PER_PAGE: u64 = 4096;

// Where the numbers stand in the line of a process, behind its name: its processor time by itself and in calls of the system, its
// memory, and how much of that is resident.
const OWN_TICKS: usize = 11;

const SYSTEM_TICKS: usize = 12;

const MEMORY: usize = 20;

const RESIDENT_PAGES: usize = 21;

/// Of what build a program is.
#[derive(Clone, Copy)]
pub struct Build {
    /// The version, as `0.2.0`. One without proof adds that, and of which commit it is where it knows it, as in
    /// `0.2.0 (0123456789ab, not proved)`.
    pub version: &'static str,
    /// The first 12 hexadecimal digits of the commit of a proved program, where it was started with them.
    pub commit: Option<u64>,
}

impl Display for Build {
    fn fmt<W: fmt::Write>(&self, f: &mut fmt::Formatter<W>) -> fmt::Result {
        let version = self.version;
        match self.commit {
            Some(commit) => write!(f, "{version} ({commit:012x})"),
            None => write!(f, "{version}"),
        }
    }
}

/// Where the system tells of this process, if it does.
#[derive(Drop)]
pub struct ProcessFiles {
    /// `/proc/self/stat`, the line of its times and its memory.
    pub stat: Option<File>,
    /// `/proc/self/fd`, the folder of its descriptors.
    pub descriptors: Option<File>,
    /// When it began, in microseconds since 1970.
    pub began: Option<u64>,
}

/// What the system says of a process, as far as it does.
#[derive(Clone, Copy)]
pub struct ProcessFigures {
    /// Its processor time, in microseconds.
    pub processor: Option<u64>,
    /// Its memory, in bytes.
    pub memory: Option<u64>,
    /// How much of that is resident, in bytes.
    pub resident: Option<u64>,
    /// How many descriptors are open, from Linux 6.2 on.
    pub descriptors: Option<u64>,
    /// How many can be.
    pub most_descriptors: Option<u64>,
    /// When it began, in microseconds since 1970.
    pub began: Option<u64>,
}

impl ProcessFiles {
    /// What the system says now.
    pub fn figures(&self) -> ProcessFigures {
        let mut buffer = [0; 1024];
        let count = match &self.stat {
            Some(file) => file.read_at(&mut buffer, 0).unwrap_or(0),
            None => 0,
        };
        let stat = str::from_utf8(buffer.get(..count).unwrap_or(&[])).unwrap_or("");
        // A name may have a parenthesis in it.
        let (_, numbers) = stat.rsplit_once(") ").unwrap_or(("", ""));
        let ticks = number_at(numbers, OWN_TICKS).and_then(|own| {
            number_at(numbers, SYSTEM_TICKS).map(|system| own.saturating_add(system))
        });
        ProcessFigures {
            processor: ticks.map(|ticks| ticks.saturating_mul(MICROSECONDS_PER_TICK)),
            memory: number_at(numbers, MEMORY),
            resident: number_at(numbers, RESIDENT_PAGES).map(|pages| pages.saturating_mul(
                BYTES_PER_PAGE,
            )),
            descriptors: self.open_descriptors(),
            most_descriptors: most_descriptors(),
            began: self.began,
        }
    }

    // As many as its folder tells as its size, which is 0 before Linux 6.2.
    fn open_descriptors(&self) -> Option<u64> {
        let folder = self.descriptors.as_ref()?;
        let count = folder.metadata().ok()?.len();
        (count > 0).then_some(count)
    }
}

// The number at this place of a line.
fn number_at(line: &str, place: usize) -> Option<u64> {
    line.split(' ').nth(place)?.parse::<u64>().ok()
}

fn most_descriptors() -> Option<u64> {
    let mut limit = rlimit {
        rlim_cur: 0,
        rlim_max: 0,
    };
    (libc::getrlimit(RLIMIT_NOFILE, &mut limit) == 0).then_some(limit.rlim_cur)
}

/// The lines on the build, whose value is 1.
pub(crate) fn push_build(text: &mut String, build: &Build) -> Result<(), AllocError> {
    let words =
        "The version of the program, its commit where that is known, and whether it is proved.";
    push_head(text, "mltx_", "build_info", "gauge", words)?;
    let (version, rest) = build
        .version
        .split_once(" (")
        .unwrap_or((build.version, ""));
    write!(text, "mltx_build_info{{version=\"{version}\",commit=\"")?;
    match build.commit {
        Some(commit) => write!(text, "{commit:012x}")?,
        None => text.push_str(rest.strip_suffix(", not proved)").unwrap_or(""))?,
    }
    let proved = if rest.ends_with("not proved)") {
        "no"
    } else {
        "yes"
    };
    write!(text, "\",proved=\"{proved}\"}} 1\n")
}

/// The lines on the process, under the names that Prometheus' own libraries give. What the system does not say has none.
pub(crate) fn push_process(text: &mut String, figures: &ProcessFigures) -> Result<(), AllocError> {
    let words = "Total user and system CPU time spent in seconds.";
    let name = "cpu_seconds_total";
    push_known(text, name, "counter", words, figures.processor.map(Seconds))?;
    let words = "Virtual memory size in bytes.";
    push_known(text, "virtual_memory_bytes", "gauge", words, figures.memory)?;
    let words = "Resident memory size in bytes.";
    push_known(
        text,
        "resident_memory_bytes",
        "gauge",
        words,
        figures.resident,
    )?;
    let words = "Number of open file descriptors.";
    push_known(text, "open_fds", "gauge", words, figures.descriptors)?;
    let words = "Maximum number of open file descriptors.";
    push_known(text, "max_fds", "gauge", words, figures.most_descriptors)?;
    let words = "Start time of the process since unix epoch in seconds.";
    let name = "start_time_seconds";
    push_known(text, name, "gauge", words, figures.began.map(Seconds))
}

// The lines of a number, where it is known.
fn push_known<N: Display + Drop>(
    text: &mut String,
    name: &str,
    kind: &str,
    words: &str,
    value: Option<N>,
) -> Result<(), AllocError> {
    let Some(value) = value else {
        return Ok(());
    };
    push_head(text, "process_", name, kind, words)?;
    write!(text, "process_{name} {value}\n")
}
