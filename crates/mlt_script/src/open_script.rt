//! Scripts whose ending has not come yet.

ghost use Rattle.std.specs.Prelude.{◌≡◌, ◌<◌, ◌≤◌, None, [], IfOk, OnOk, OnErr, reverse};
ghost use Rattle.mlt_script.specs.Blocks.{path, widest, deepest, lines_open};
ghost use Rattle.mlt_script.specs.Blocks.Block.{Nothing};
ghost use Rattle.mlt_script.specs.Blocks.Open.{Top};
ghost use Rattle.mlt_script.specs.Frames.{frames_of};
ghost use Rattle.mlt_script.specs.Scan.{line_fault, long_fault, else_fault};
ghost use Rattle.mlt_script.specs.Scripts.{open_of, one_more};

use crate::frame::Frame;
use crate::statement::{Asking, Line, Statement, Wanted};
use mlt_types::ScriptCause;
use std::alloc::{AllocError, Global};

// Up to so many lines their list grows as any vector does.
const FEW: usize = 4;

// So many lines a script without ifs may have.
const MOST: usize = 256;

// Makes room for one more line. Behind a few lines it is room for as many as most scripts have, so that these are not moved again
// and again. What is left of it is given back as the script ends.
#[inline(always)]
fn make_room(lines: &mut Vec<Line>) -> Result<(), AllocError>
    ensures { lines.new.items ≡ lines.old.items }
{
    if lines.len() == lines.capacity() && lines.len() >= FEW {
        lines.reserve(MOST)?;
    }
    Ok(())
}

/// Gives back the room of lines that end, where more than a third of it is free: less is not worth moving the lines.
pub fn give_back(lines: &mut Vec<Line>)
    ensures { lines.new.items ≡ lines.old.items }
{
    if lines.capacity() - lines.len() > lines.len() / 2 {
        lines.shrink_to_fit();
    }
}

/// A script that is read up to somewhere: its lines so far, the operations on the longest path to here, and the ifs
/// that are open, the innermost last.
#[derive(Drop)]
pub struct OpenScript {
    pub client: u16,
    pub lines: Vec<Line>,
    pub count: u16,
    pub ifs: Vec<Frame>,
    pub ghost client_in_range: { client < 1000 },
    pub ghost kept: { lines_open (open_of lines.items) ≡ lines.items },
    pub ghost counted: { path (open_of lines.items) ≡ count },
    pub ghost framed: { frames_of (open_of lines.items) ≡ reverse ifs.items },
    pub ghost wide: { widest (open_of lines.items) ≤ 256 },
    pub ghost deep: { deepest (open_of lines.items) ≤ 16 },
}

impl OpenScript {
    /// A script of which nothing but its `begin` was read.
    pub fn new(alloc: Global, client: u16) -> OpenScript
        requires { client < 1000 }
        ensures client { result.client ≡ client }
        ensures begun { open_of result.lines.items ≡ Top Nothing }
    {
        OpenScript {
            client,
            lines: Vec::new(alloc),
            count: 0,
            ifs: Vec::new(alloc),
        }
    }

    /// Why a statement may not stand here.
    pub fn long_fault(&self) -> Option<ScriptCause>
        ensures { result ≡ long_fault (open_of self.now.lines.items) }
    {
        if self.count >= 256 {
            Some(ScriptCause::Long)
        } else {
            None
        }
    }

    fn else_fault(&self) -> Option<ScriptCause>
        ensures { result ≡ else_fault (open_of self.now.lines.items) }
    {
        match self.ifs.last() {
            Some(frame) if !frame.turned => None,
            _ => Some(ScriptCause::Place),
        }
    }

    /// Why the line may not stand here.
    pub fn fault_of(&self, line: Line) -> Option<ScriptCause>
        ensures { result ≡ line_fault (open_of self.now.lines.items) line }
    {
        match line {
            Line::Plain(_) => self.long_fault(),
            Line::If(_, _) => {
                if self.ifs.len() >= 16 {
                    Some(ScriptCause::Deep)
                } else {
                    self.long_fault()
                }
            }
            Line::Else => self.else_fault(),
            Line::End => {
                if self.ifs.is_empty() {
                    Some(ScriptCause::Place)
                } else {
                    None
                }
            }
        }
    }

    /// Goes over a statement that may stand here. Where memory runs out, nothing has changed.
    #[inline(always)]
    pub fn ask(&mut self, statement: Statement) -> Result<(), AllocError>
        requires { line_fault (open_of self.old.lines.items) (Line.Plain statement) ≡ None }
        ensures client { self.new.client ≡ self.old.client }
        ensures lines { OnOk result
            (open_of self.new.lines.items
            ≡ one_more (open_of self.old.lines.items) (Line.Plain statement)) }
        ensures err { OnErr result (self.new.lines.items ≡ self.old.lines.items) }
    {
        make_room(&mut self.lines)?;
        self.lines.push(Line::Plain(statement))?;
        self.count += 1;
        Ok(())
    }

    fn open(self, asking: Asking, wanted: Wanted) -> Result<OpenScript, AllocError>
        requires { line_fault (open_of self.lines.items) (Line.If asking wanted) ≡ None }
        ensures client { IfOk result (λ script. script.client ≡ self.client) }
        ensures lines { IfOk result
            (λ script. open_of script.lines.items
            ≡ one_more (open_of self.lines.items) (Line.If asking wanted)) }
    {
        let OpenScript {
            client,
            mut lines,
            count,
            mut ifs,
        } = self;
        let count = count + 1;
        lines.push(Line::If(asking, wanted))?;
        ifs.push(Frame {
            other: count,
            turned: false,
        })?;
        Ok(OpenScript {
            client,
            lines,
            count,
            ifs,
        })
    }

    fn turn(self) -> Result<OpenScript, AllocError>
        requires { line_fault (open_of self.lines.items) Line.Else ≡ None }
        ensures client { IfOk result (λ script. script.client ≡ self.client) }
        ensures lines { IfOk result
            (λ script. open_of script.lines.items ≡ one_more (open_of self.lines.items) Line.Else) }
    {
        let OpenScript {
            client,
            mut lines,
            count,
            mut ifs,
        } = self;
        match ifs.pop() {
            Some(frame) => {
                lines.push(Line::Else)?;
                ifs.push(Frame {
                    other: count,
                    turned: true,
                })?;
                Ok(OpenScript {
                    client,
                    lines,
                    count: frame.other,
                    ifs,
                })
            }
            None => unreachable!(),
        }
    }

    fn close(self) -> Result<OpenScript, AllocError>
        requires { line_fault (open_of self.lines.items) Line.End ≡ None }
        ensures client { IfOk result (λ script. script.client ≡ self.client) }
        ensures lines { IfOk result
            (λ script. open_of script.lines.items ≡ one_more (open_of self.lines.items) Line.End) }
    {
        let OpenScript {
            client,
            mut lines,
            count,
            mut ifs,
        } = self;
        match ifs.pop() {
            Some(frame) => {
                if !frame.turned {
                    lines.push(Line::Else)?;
                }
                lines.push(Line::End)?;
                Ok(OpenScript {
                    client,
                    lines,
                    count: count.max(frame.other),
                    ifs,
                })
            }
            None => unreachable!(),
        }
    }

    /// Goes over a line that may stand here.
    pub fn say(self, line: Line) -> Result<OpenScript, AllocError>
        requires { line_fault (open_of self.lines.items) line ≡ None }
        ensures client { IfOk result (λ script. script.client ≡ self.client) }
        ensures lines { IfOk result
            (λ script. open_of script.lines.items ≡ one_more (open_of self.lines.items) line) }
    {
        match line {
            Line::Plain(statement) => {
                let mut script = self;
                script.ask(statement)?;
                Ok(script)
            }
            Line::If(asking, wanted) => self.open(asking, wanted),
            Line::Else => self.turn(),
            Line::End => self.close(),
        }
    }
}
