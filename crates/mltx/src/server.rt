//! A server.

ghost use Rattle.std.specs.Prelude.{◌≡◌, ◌≤◌, ◌<◌, ◌↔◌, true};
ghost use Rattle.mltx.specs.Options.{AreLimitsOf, IsTimeOf};

use crate::beginning::Beginning;
use crate::data_folder::DataFolder;
use crate::end_signals::EndSignals;
use crate::failure::{Failure, Subject, file_name, given};
use crate::loading::{LoadEnd, LoadSlot, ServedBase};
use crate::opened::Opened;
use crate::output::Output;
use crate::saving::{Mark, SaveFile};
use mio::Poll;
use mlt_cli::{Connections, Full, Serve, VERSION};
use mlt_manager::Manager;
use mlt_serve::{
    Admin, Build, Operating, ProcessFiles, ServeOptions, Served, ServedEndless, serve_endless,
    serve_on,
};
use mlt_text::write_text;
use mlt_types::{Limits, Pseudo, Refusal};
use std::fs::File;
use std::io::ErrorKind;
use std::sync::{Mutex, Wait};
use std::thread::Threads;
use std::time::{Clock, Duration, SystemTime};
use std::{env, io};

/// Serves connections, as these options say.
///
/// # Errors
/// Why that was not done.
pub(crate) fn run_server<
    P: Pseudo + Drop + Send + Copy,
    T: Threads + Wait + Clock + Sync + Send + Copy + 'static,
>(
    rt: &HostRuntime,
    threads: &T,
    serve: &Serve,
    tells_number: bool,
    pseudo: P,
) -> Result<(), Failure>
    requires some { 0 < serve.now.sessions }
    requires most { serve.now.sessions ≤ 64 }
{
    let process = process_files(rt);
    let mut options = serve_options(serve);
    let mut signal = EndSignals::new(rt, threads, serve.operating.until_eof)?;
    let Beginning {
        base,
        save,
        data,
        told,
    } = match Beginning::open(rt, serve, &mut signal) {
        Ok(beginning) => beginning,
        Err(end) => return tell_end(rt, serve, end),
    };
    let trace = match &data {
        Some(data) => Some(data.trace.as_str()),
        None => serve.run.trace.as_ref().map(|file| file.as_str()),
    };
    let opened = Opened::open(rt, serve, trace)?;
    let poll = match serve.connections {
        Connections::Endless(_) => {
            Some(Poll::new(rt).map_err(|error| Failure::of_call(Subject::Input, error))?)
        }
        Connections::Limit(_) => None,
    };
    opened.spare_descriptors(poll.is_some())?;
    let loses = save.is_some() && !signal.are_held();
    let few_clients = match serve.connections {
        Connections::Endless(clients) => opened.few_clients(clients),
        Connections::Limit(_) => None,
    };
    options.clients = few_clients.unwrap_or(options.clients);
    let unsaid = opened.report(rt, told, tells_number, loses, few_clients)?;
    let Opened {
        listener,
        admin,
        trace,
        keys,
        number,
    } = opened;
    let save = save.map(Mutex::new);
    let operating = Operating {
        notes: rt.stderr(),
        unsaid,
        trace,
        signal,
        admin: match &admin {
            Some(listener) => Some(Admin {
                listener,
                keys,
                number,
                build: Build {
                    version: VERSION,
                    commit: commit_of(rt),
                },
                process: &process,
            }),
            None => None,
        },
        save: save.as_ref(),
    };
    let end = LoadSlot::new(rt.alloc())?;
    let base = ServedBase::new(rt.alloc(), base, end.clone()?);
    let (connections, manager, trace_failure) = match poll {
        None => {
            let served = match serve_on(
                threads,
                rt.alloc(),
                &listener,
                pseudo,
                &options,
                operating,
                base,
            ) {
                Ok(served) => served,
                Err(refusal) => return tell_refusal(rt, serve, end.take(), refusal),
            };
            (served.connections, served.manager, served.trace_failure)
        }
        Some(poll) => {
            let told = match serve_endless(
                threads,
                rt.alloc(),
                &listener,
                pseudo,
                &options,
                operating,
                base,
                poll,
            ) {
                Ok(told) => told,
                Err(refusal) => return tell_refusal(rt, serve, end.take(), refusal),
            };
            (told.connections, told.manager, told.trace_failure)
        }
    };
    let save = save.map(|save| save.into_inner());
    // A trace that has not got all is older than the base, also where the server is killed before the trace is moved away.
    let mark = match &trace_failure {
        Some(_) => Mark::After(manager.commits()),
        None => Mark::Loaded,
    };
    let saved = save_base(save, &data, &manager, mark);
    manager.close();
    saved?;
    write_served(rt, connections)?;
    match trace_failure {
        Some(error) => Err(Failure::of_call(Subject::Trace, error)),
        None => Ok(()),
    }
}

// The commit of the program, of which it was started with at least 12 hexadecimal digits.
fn commit_of(rt: &HostRuntime) -> Option<u64> {
    let commit = env::var(rt, "MLTX_COMMIT").ok()?;
    u64::from_str_radix(commit.as_str().get(..12)?, 16).ok()
}

// Where the system tells of this process, which began just now.
fn process_files(rt: &HostRuntime) -> ProcessFiles {
    let now = SystemTime::now(rt).ok();
    let began = now.and_then(|now| now.duration_since(SystemTime::UNIX_EPOCH).ok());
    ProcessFiles {
        stat: File::open(rt, "/proc/self/stat").ok(),
        descriptors: File::open(rt, "/proc/self/fd").ok(),
        began: began.and_then(|began| u64::try_from(began.as_micros()).ok()),
    }
}

// Why a server was refused, whose base was not loaded for this reason, if it was not.
fn tell_refusal(
    rt: &HostRuntime,
    serve: &Serve,
    end: Option<LoadEnd>,
    refusal: Refusal,
) -> Result<(), Failure> {
    match end {
        Some(end) => tell_end(rt, serve, end),
        None => Err(Failure::from(refusal)),
    }
}

// Why a base was not loaded. Where the server was to end before, that is told, and it ends as it was to.
fn tell_end(rt: &HostRuntime, serve: &Serve, end: LoadEnd) -> Result<(), Failure> {
    if let LoadEnd::Failed(failure) = end {
        return Err(failure);
    }
    let file = match &serve.operating.data {
        Some(folder) => folder.as_str(),
        None => file_name(given(&serve.run.load)),
    };
    let text = format!(in rt.alloc(); "mltx: stopped while loading {file}; nothing was saved\n")?;
    // The status tells that the server has ended as it was to also where the line can't be written.
    let _ = write_text(&mut rt.stderr(), text.as_bytes());
    Ok(())
}

// Saves the base of the manager, where that is asked for, in a folder with this mark. The trace is kept there as that of before then.
fn save_base<P: Pseudo>(
    save: Option<SaveFile>,
    data: &Option<DataFolder>,
    manager: &Manager<P>,
    mark: Mark,
) -> Result<(), Failure> {
    let Some(mut file) = save else {
        return Ok(());
    };
    let Ok(base) = manager.base() else {
        return Err(Failure::of_save(ErrorKind::OutOfMemory.into(), None));
    };
    if let Err(error) = file.save_marked(&base, mark) {
        return Err(Failure::of_save(error, file.rescue(&base)));
    }
    match data {
        Some(data) => data
            .keep_trace()
            .map_err(|error| Failure::of_call(Subject::Data, error)),
        None => Ok(()),
    }
}

// How many connections a server without an end accepts, as many as it has numbers of transactions.
const MOST_CONNECTIONS: u64 = (1 << 63) - 1;

fn serve_options(serve: &Serve) -> ServeOptions
    ensures sessions { result.sessions ≡ serve.now.sessions }
    ensures tries { result.tries ≡ serve.now.tries }
    ensures limits { AreLimitsOf serve.now.connections result.limits result.connections }
    ensures idle { IsTimeOf serve.now.times.idle result.idle }
    ensures wait { IsTimeOf serve.now.times.wait result.wait }
    ensures open { IsTimeOf serve.now.times.transaction result.open }
    ensures refuses { (serve.now.full ≡ Full.Refuse) ↔ (result.refuses ≡ true) }
{
    let (limits, connections, clients) = limits_of(&serve.connections);
    ServeOptions {
        limits,
        sessions: serve.sessions,
        connections,
        tries: serve.tries,
        idle: seconds(serve.times.idle),
        wait: seconds(serve.times.wait),
        open: seconds(serve.times.transaction),
        clients,
        refuses: serve.full == Full::Refuse,
    }
}

// The limits of the manager, how many connections are accepted in all, and how many clients may be connected at once.
fn limits_of(connections: &Connections) -> (Limits, u64, u64)
    ensures { AreLimitsOf connections.now result.0 result.1 }
{
    match connections {
        Connections::Limit(limit) => (Limits::program(), u64::from(*limit), u64::MAX),
        Connections::Endless(clients) => (Limits::endless(), MOST_CONNECTIONS, *clients),
    }
}

// So many seconds; 0 is for ever.
fn seconds(count: u64) -> Option<Duration>
    ensures { IsTimeOf count result }
{
    match count {
        0 => None,
        _ => Some(Duration::from_secs(count)),
    }
}

// Writes how many connections were served.
fn write_served(rt: &HostRuntime, connections: u64) -> Result<(), Failure> {
    let text = format!(in rt.alloc(); "served {connections}\n")?;
    let mut output = Output::new(io::writer(rt));
    write_text(&mut output, text.as_bytes()).map_err(|refusal| Failure::of_stream(
        refusal,
        Subject::Output,
        output.failure(),
    ))
}
