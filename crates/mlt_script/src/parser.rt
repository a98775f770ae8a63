//! Texts of scripts.

ghost use Rattle.std.specs.Prelude.{◌≡◌, ◌≤◌, ◌<◌, ◌⊎◌, ℕ, List, length, IfOk, IfErr, IsErrAnd, MatchResult, [], Err};
ghost use Rattle.mlt_types.specs.declared.refusal.ScriptCause.{ScriptCause};
ghost use Rattle.mlt_script.specs.Grammar.{Spells, IsFirstFault, IsDecided};
ghost use Rattle.mlt_text_words.specs.Lines.{lines};
ghost use Rattle.mlt_script.specs.Readings.{IsReading};
ghost use Rattle.mlt_script.specs.Scan.{scan, step, advance, at_end, Gives, Advances};
ghost use Rattle.mlt_script.specs.Scan.ScanState.{Outside};
ghost use Rattle.mlt_script.specs.Scripts.{ScriptForm};

use crate::forms::LineForm;
use crate::line::{ScriptReading, read_first};
use crate::open_script::{OpenScript, give_back};
use crate::plain::op_line;
use crate::script::Script;
use crate::statement::{Asking, Ending, Line, Statement};
use mlt_types::{Refusal, ScriptCause};
use std::alloc::Global;

/// What was read of a text so far. After an `Err` it is of no more use.
#[derive(Drop)]
struct Parser {
    scripts: Vec<Script>,
    begun: Option<OpenScript>,
}

fn misplaced(line: u64) -> Refusal
    ensures { result ≡ Refusal.ScriptFault line ScriptCause.Place }
{
    Refusal::ScriptFault {
        line,
        cause: ScriptCause::Place,
    }
}

impl Parser {
    ghost use Rattle.mlt_script.specs.Parsers.{state_of};

    fn new(alloc: Global) -> Parser
        ensures { state_of result ≡ Outside [] }
    {
        Parser {
            scripts: Vec::new(alloc),
            begun: None,
        }
    }

    /// Begins a script.
    fn begin(&mut self, alloc: Global, line: u64, client: u16) -> Result<(), Refusal>
        requires { client < 1000 }
        ensures { Advances result line (step (state_of self.old) (LineForm.Begins client))
            (state_of self.new) }
    {
        match &self.begun {
            Some(_) => Err(misplaced(line)),
            None => {
                self.begun = Some(OpenScript::new(alloc, client));
                Ok(())
            }
        }
    }

    /// Ends the script that is open.
    fn close(&mut self, line: u64, ending: Ending) -> Result<(), Refusal>
        ensures { Advances result line (step (state_of self.old) (LineForm.Closes ending))
            (state_of self.new) }
    {
        match self.begun.take() {
            Some(script) if script.ifs.is_empty() => {
                let OpenScript {
                    client,
                    mut lines,
                    count: _,
                    ifs: _,
                } = script;
                give_back(&mut lines);
                self.scripts.push(Script::new(client, lines, ending))?;
                Ok(())
            }
            _ => Err(misplaced(line)),
        }
    }

    /// Goes over a line of an if.
    fn say(&mut self, line: u64, said: Line) -> Result<(), Refusal>
        ensures { Advances result line (step (state_of self.old) (LineForm.Says said))
            (state_of self.new) }
    {
        match self.begun.take() {
            None => Err(misplaced(line)),
            Some(script) => match script.fault_of(said) {
                Some(cause) => Err(Refusal::ScriptFault { line, cause }),
                None => {
                    let script = script.say(said)?;
                    self.begun = Some(script);
                    Ok(())
                }
            },
        }
    }

    /// Goes over a statement, in place.
    fn ask(&mut self, line: u64, statement: Statement) -> Result<(), Refusal>
        ensures { Advances result line
            (step (state_of self.old) (LineForm.Says (Line.Plain statement))) (state_of self.new) }
    {
        match &mut self.begun {
            None => Err(misplaced(line)),
            Some(script) => match script.long_fault() {
                Some(cause) => Err(Refusal::ScriptFault { line, cause }),
                None => {
                    script.ask(statement)?;
                    Ok(())
                }
            },
        }
    }

    /// Goes over a line of a form.
    fn step(&mut self, alloc: Global, line: u64, form: LineForm) -> Result<(), Refusal>
        requires { IsReading (ScriptReading.Form form) }
        ensures { Advances result line (step (state_of self.old) form) (state_of self.new) }
    {
        match form {
            LineForm::Begins(client) => self.begin(alloc, line, client),
            LineForm::Says(Line::Plain(statement)) => self.ask(line, statement),
            LineForm::Says(said) => self.say(line, said),
            LineForm::Closes(ending) => self.close(line, ending),
        }
    }

    /// Goes over a line.
    fn read(&mut self, alloc: Global, line: u64, reading: ScriptReading) -> Result<(), Refusal>
        requires { IsReading reading }
        ensures { Advances result line (advance (state_of self.old) reading) (state_of self.new) }
    {
        match reading {
            ScriptReading::Bad(cause) => Err(Refusal::ScriptFault { line, cause }),
            ScriptReading::Skip => Ok(()),
            ScriptReading::Form(form) => self.step(alloc, line, form),
        }
    }

    /// The scripts, where the last one is closed.
    fn finish(self, line: u64) -> Result<Vec<Script>, Refusal>
        ensures { Gives (λ scripts. scripts.items) result (at_end (state_of self) line) }
    {
        match self.begun {
            None => Ok(self.scripts),
            Some(_) => Err(Refusal::ScriptFault {
                line,
                cause: ScriptCause::Unfinished,
            }),
        }
    }
}

/// The scripts of a text, or its first fault, line by line.
fn read_lines(alloc: Global, text: &[u8]) -> Result<Vec<Script>, Refusal>
    ensures { Gives (λ scripts. scripts.items) result (scan (Outside []) 0 (lines text.now)) }
{
    let mut parser = Parser::new(alloc);
    let mut rest = text;
    let mut line = 0u64;
    while !rest.is_empty() {
        line += 1;
        if let Some((op, after)) = op_line(rest) {
            parser.ask(line, Statement::Ask(Asking::Fixed(op)))?;
            rest = after;
            continue;
        }
        let (reading, after) = read_first(rest);
        parser.read(alloc, line, reading)?;
        rest = after;
    }
    parser.finish(line)
}

/// The scripts of a text, in order. Lines are counted from 1; blank lines and lines whose first word begins with
/// `#` are skipped.
///
/// # Errors
/// `ScriptFault` exactly where the text has a fault, with the number of its first faulty line and the first cause
/// there. `OutOfMemory` where memory runs out.
pub fn parse(alloc: Global, text: &[u8]) -> Result<Vec<Script>, Refusal>
    ensures spelled { IfOk result (λ scripts. Spells text.now scripts.items) }
    ensures accepted { (scripts : List ScriptForm) → Spells text.now scripts
        → MatchResult result (λ found. found.items ≡ scripts)
        (λ refusal. refusal ≡ Refusal.OutOfMemory) }
    ensures fault { (line : ℕ) (cause : ScriptCause) → result ≡ Err (Refusal.ScriptFault line cause)
        → IsFirstFault text.now line cause }
    ensures faulty { (line : ℕ) (cause : ScriptCause) → IsFirstFault text.now line cause
        → IsErrAnd result
        (λ refusal. (refusal ≡ Refusal.ScriptFault line cause)
        ⊎ (refusal ≡ Refusal.OutOfMemory)) }
    ensures refusals { IfErr result (λ refusal. (refusal ≡ Refusal.OutOfMemory)
        ⊎ ((line : ℕ) × (cause : ScriptCause) × (refusal ≡ Refusal.ScriptFault line cause))) }
    ensures decided { IsDecided text.now }
{
    read_lines(alloc, text)
}
