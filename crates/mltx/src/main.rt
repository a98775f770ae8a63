//! The program `mltx`: it reads the command line, opens the files, calls the engine of the command
//! and ends with a status. It is proved that the program is safe, does not panic, and returns if
//! the system's calls do. Which file or address it opens, and what it writes on standard output and
//! standard error, is only tested.
#![tactic(auto)]

mod beginning;
mod data_folder;
mod end_signals;
mod failure;
mod files;
mod input;
mod loading;
mod opened;
mod output;
mod saving;
mod screen;
mod server;
mod streams;
mod traced;

ghost use Rattle.std.specs.Prelude.{◌≡◌, ◌≤◌, ◌<◌, ◌↔◌, [], true, IfOk, Ok, OnOk};
ghost use Rattle.std.specs.Io.KnownBytes.{Appends};
ghost use Rattle.mlt_trace.specs.Items.{trace_text};
ghost use Rattle.mlt_cli.specs.CommandLine.{IsWithinBounds};

use clap::error::ErrorKind;
use failure::{Failure, Subject, explain, run_of};
use input::Input;
use loading::{Loading, open_base};
use mlt_cli::{
    Check, CommandLine, Hash, Job, Run, Schedule, Work, read_words, report_command_line,
    report_fault, status,
};
use mlt_manager::Manager;
use mlt_manager_laws::{
    aborts_of_a_run_take_few_steps, managers_of_a_run_keep_their_promises,
    operations_of_a_run_take_few_steps,
};
use mlt_manager_solo::solo;
use mlt_manager_steps::steps;
use mlt_object_tables::{TableName, write_tables};
use mlt_script::Script;
use mlt_script_load::Form;
use mlt_script_texts::Echoed;
use mlt_text::write_text;
use mlt_trace::{KeptItem, write_trace};
use mlt_trace_check::{check_long_trace, check_trace};
use mlt_types::{Limits, Low, Mult, Pseudo, Refusal};
use mlt_work::{NoGate, RunOptions, run_scripts};
use output::Output;
use screen::{Screen, look_of};
use server::run_server;
use std::alloc::Global;
use std::fs::File;
use std::io::{self, Printer, Write};
use std::process::ExitCode;
use std::sync::Wait;
use std::thread::Threads;
use std::time::Clock;
use std::{env, fs};
use streams::{STDERR, STDIN, Streams, is_terminal};

fn main(rt: HostRuntime) -> ExitCode {
    let _streams = Streams::open(&rt);
    let status = match run(&rt, &rt) {
        Ok(status) => status,
        Err(refusal) => told_status(&rt, refusal),
    };
    ExitCode::from(status)
}

// The status. Help and the texts of runs go to standard output, and all else to standard error. The threads are those of
// the runtime, which has them in `main` alone.
fn run<T: Threads + Wait + Clock + Sync + Send + Copy + 'static>(
    rt: &HostRuntime,
    threads: &T,
) -> Result<u8, Refusal> {
    let words = words(rt)?;
    match read_words(rt.alloc(), words.as_slice()) {
        Ok(line) => {
            if words.is_empty() && is_terminal(rt, STDIN) {
                // A hint, without which all works.
                let _ = write_text(&mut rt.stderr(), WAITS.as_bytes());
            }
            Ok(do_line(rt, threads, &line))
        }
        Err(error) => {
            let status = report_command_line(&error, &mut io::writer(rt), &mut rt.stderr())?;
            suggest(rt, &error, words.as_slice());
            Ok(status)
        }
    }
}

// The words after the program's name.
fn words(rt: &HostRuntime) -> Result<Vec<String>, Refusal> {
    match env::args(rt) {
        Ok(args) => Ok(args.skip(1).collect(rt.alloc())?),
        Err(error) if error.kind() == io::ErrorKind::OutOfMemory => Err(Refusal::OutOfMemory),
        Err(_) => Err(Refusal::Io),
    }
}

// What is told at a terminal where the program is called without words.
const WAITS: &str =
    "mltx: reading scripts from the terminal until Ctrl-D; `mltx --help` lists the commands\n";

// Where the first word is no command but a file, tells which command runs that, and where it asks for the version, how that is written.
fn suggest(rt: &HostRuntime, error: &clap::Error, words: &[String]) {
    let Some(word) = words.first() else {
        return;
    };
    if error.kind() != ErrorKind::InvalidSubcommand {
        return;
    }
    let tip = if word.as_str() == "version" {
        format!(in rt.alloc(); "\n  tip: to print the version: mltx --version\n")
    } else if fs::metadata(rt, word.as_str()).is_ok_and(|found| found.is_file()) {
        format!(in rt.alloc(); "\n  tip: to run the scripts of a file: mltx solo {word}\n")
    } else {
        return;
    };
    // A hint, as above.
    if let Ok(text) = tip {
        let _ = write_text(&mut rt.stderr(), text.as_bytes());
    }
}

// The status of a fault, of which the line is written.
fn told_status(rt: &HostRuntime, refusal: Refusal) -> u8 {
    // The status tells of the fault also where its line can't be written.
    let _ = report_fault(&refusal, &mut rt.stderr());
    status(&Err(refusal))
}

// Does what the command line asks for. The second line of a fault comes behind the first, where that is asked for, or standard error is
// a terminal.
fn do_line<T: Threads + Wait + Clock + Sync + Send + Copy + 'static>(
    rt: &HostRuntime,
    threads: &T,
    line: &CommandLine,
) -> u8
    requires { IsWithinBounds line.now.job }
{
    let points = is_terminal(rt, STDERR);
    let explains = line.verbose || points;
    let hash = run_of(&line.job).map_or(Hash::Mult, |run| run.hash);
    let done = match hash {
        Hash::Mult => do_job(rt, threads, line, explains, Mult),
        Hash::Low => do_job(rt, threads, line, explains, Low),
    };
    let Err(failure) = done else {
        return status(&Ok(()));
    };
    let status = told_status(rt, failure.refusal);
    if explains || failure.is_always_explained() {
        let _ = explain(rt, &line.job, &failure, points);
    }
    status
}

fn do_job<P: Pseudo + Drop + Send + Copy, T: Threads + Wait + Clock + Sync + Send + Copy + 'static>(
    rt: &HostRuntime,
    threads: &T,
    line: &CommandLine,
    keeps: bool,
    pseudo: P,
) -> Result<(), Failure>
    requires { IsWithinBounds line.now.job }
{
    match &line.job {
        Job::Solo(run) => run_solo(rt, run, keeps, pseudo),
        Job::Steps(schedule) => run_steps(rt, schedule, keeps, pseudo),
        Job::Work(work) => run_work(rt, threads, work, keeps, pseudo),
        Job::Check(check) => run_check(rt, check, keeps),
        Job::Serve(serve) => run_server(rt, threads, serve, line.verbose, pseudo),
        Job::Tables(name) => run_tables(rt, *name),
    }
}

// The input of this name, which is kept as it is read where that is wanted.
fn open(rt: &HostRuntime, file: &str, keeps: bool) -> Result<Input, Failure> {
    Input::open(rt, file, keeps).map_err(|error| Failure::of_call(Subject::Input, error))
}

// What a run begins with, of which `echoed` is to stand beside the answers if that is asked for: the scripts that make its base, whose
// answers have this form, its input and its screen.
fn open_run<'a>(
    rt: &'a HostRuntime,
    run: &Run,
    form: Form,
    echoed: Echoed,
    keeps: bool,
) -> Result<(Vec<Script>, Input, Screen<Printer<'a, HostRuntime>>), Failure> {
    let load = run.load.as_ref().map(|file| file.as_str());
    let base = match open_base(rt, load, form, None) {
        Ok(base) => base,
        Err(end) => return Err(end.failure()),
    };
    let mut loading = Loading::read(rt.alloc(), base)?;
    let loaded = loading.take_scripts(rt.alloc());
    let input = open(rt, run.input.as_str(), keeps || run.echoes)?;
    let echoed = if run.echoes { echoed } else { Echoed::Nothing };
    let screen = Screen::new(rt.alloc(), io::writer(rt), loading, echoed, look_of(rt));
    Ok((loaded, input, screen))
}

// Shows all of a run of this input, and writes its trace. Where it was refused, says why.
fn end_run<P: Pseudo + Drop, W: Write>(
    rt: &HostRuntime,
    run: &Run,
    told: Result<Manager<P>, Refusal>,
    input: Input,
    screen: &mut Screen<W>,
) -> Result<(), Failure>
    requires { IfOk told (λ manager. manager.shared.history.handed ≡ []) }
{
    match told {
        Ok(manager) => {
            let ended = match screen.show(rt.alloc(), &input) {
                Ok(()) => write_history(rt, &manager, run),
                Err(refusal) => Err(screen.failure(refusal, input)),
            };
            manager.close();
            ended
        }
        Err(refusal) => Err(screen.failure(refusal, input)),
    }
}

fn run_solo<P: Pseudo + Drop>(
    rt: &HostRuntime,
    run: &Run,
    keeps: bool,
    pseudo: P,
) -> Result<(), Failure> {
    let (loaded, mut input, mut screen) = open_run(rt, run, Form::Solo, Echoed::Scripts, keeps)?;
    let limits = Limits::program();
    let told = solo(rt.alloc(), &mut input, &mut screen, loaded, limits, pseudo);
    end_run(rt, run, told, input, &mut screen)
}

fn run_steps<P: Pseudo + Drop>(
    rt: &HostRuntime,
    schedule: &Schedule,
    keeps: bool,
    pseudo: P,
) -> Result<(), Failure> {
    let run = &schedule.run;
    let (_, mut input, mut screen) = open_run(rt, run, Form::Solo, Echoed::Schedule, keeps)?;
    let told = steps(
        rt.alloc(),
        &mut input,
        &mut screen,
        Limits::program(),
        pseudo,
        schedule.explains,
    );
    // What held between any two events, and how many steps its operations took, and its aborts.
    managers_of_a_run_keep_their_promises::<P>();
    operations_of_a_run_take_few_steps::<P>();
    aborts_of_a_run_take_few_steps::<P>();
    end_run(rt, run, told, input, &mut screen)
}

// Nothing is kept of an input of any length, also where a fault is to have its second line.
fn run_check(rt: &HostRuntime, check: &Check, keeps: bool) -> Result<(), Failure> {
    let mut input = open(rt, check.input.as_str(), keeps && !check.is_long)?;
    let mut output = Output::new(io::writer(rt));
    let told = if check.is_long {
        check_long_trace(rt.alloc(), &mut input, &mut output)
    } else {
        check_trace(rt.alloc(), &mut input, &mut output)
    };
    match told {
        Ok(()) => Ok(()),
        Err(refusal) => Err(Failure::of_run(refusal, input, output.failure())),
    }
}

fn run_tables(rt: &HostRuntime, name: Option<TableName>) -> Result<(), Failure> {
    let mut output = Output::new(io::writer(rt));
    write_tables(rt.alloc(), name, &mut output).map_err(|refusal| Failure::of_stream(
        refusal,
        Subject::Output,
        output.failure(),
    ))
}

// These scripts, each as that of a client.
fn clients_of(alloc: Global, scripts: Vec<Script>) -> Result<Vec<Vec<Script>>, Refusal> {
    let mut clients = Vec::new(alloc);
    for script in scripts {
        let mut own = Vec::new(alloc);
        own.push(script)?;
        clients.push(own)?;
    }
    Ok(clients)
}

fn run_work<P: Pseudo + Drop + Send, T: Threads + Wait + Clock + Sync>(
    rt: &HostRuntime,
    threads: &T,
    work: &Work,
    keeps: bool,
    pseudo: P,
) -> Result<(), Failure>
    requires some { 0 < work.now.workers }
    requires most { work.now.workers ≤ 8 }
{
    let run = &work.run;
    let (loaded, mut input, mut screen) = open_run(rt, run, Form::Run, Echoed::Clients, keeps)?;
    let loaded = clients_of(rt.alloc(), loaded)?;
    let options = RunOptions {
        limits: Limits::program(),
        workers: work.workers,
        takes_turns: work.workers > 1,
        tries: work.tries,
        first: loaded.len() as u64,
    };
    let told = run_scripts(
        threads,
        rt.alloc(),
        &mut input,
        &mut screen,
        pseudo,
        loaded,
        &options,
        &NoGate,
    );
    end_run(rt, run, told, input, &mut screen)
}

// Writes the trace of what the transactions did, where a file for it is named.
fn write_history<P: Pseudo>(
    rt: &HostRuntime,
    manager: &Manager<P>,
    run: &Run,
) -> Result<(), Failure>
    requires { manager.now.shared.history.handed ≡ [] }
{
    let Some(file) = &run.trace else {
        return Ok(());
    };
    let created = File::create(rt, file.as_str()).map_err(|error| Failure::of_call(
        Subject::Trace,
        error,
    ))?;
    let mut output = Output::new(created);
    write_items(manager, &mut output).map_err(|refusal| Failure::of_stream(
        refusal,
        Subject::Trace,
        output.failure(),
    ))
}

// Writes the text of the whole history.
fn write_items<P: Pseudo, W: Write>(manager: &Manager<P>, writer: &mut W) -> Result<(), Refusal>
    requires { manager.now.shared.history.handed ≡ [] }
    ensures ok { OnOk result (Appends (W.contents writer.old) (W.contents writer.new)
        (trace_text manager.now.shared.history.items)) }
{
    let Some(items) = manager.history() else {
        unreachable!()
    };
    // The text of every history passes the checker.
    manager.passes_the_checker();
    write_trace(items, writer)
}
