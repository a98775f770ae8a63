//! Lines of a script that are skipped.

ghost use Rattle.std.specs.Prelude.{◌≡◌, true, ℕ, List, ◌<◌, ◌≤◌, ◌+◌, ◌^◌, length, drop};
ghost use Rattle.mlt_script_serial.specs.Follows.{Variables};
ghost use Rattle.mlt_script_serial.specs.Runs.{run, skipped, level, stops_at, is_settled};
ghost use Rattle.mlt_script_serial.specs.declared.skipping.Skipping.TheVariants.{Nowhere};
ghost use Rattle.mlt_script.specs.declared.statement.Ending.{Ending};

use mlt_script::Line;

/// Up to where lines are skipped.
#[derive(Clone, Copy)]
pub enum Skipping {
    /// None is.
    Nowhere,
    /// To the `else` or the `end` of an `if`, below so many more.
    ToElse(usize),
    /// To the `end` of an `if`, below so many more.
    ToEnd(usize),
}

fn skip(line: Line, skipping: Skipping) -> Skipping
    requires { level skipping < 2 ^ 63 }
    ensures skipped { result ≡ skipped line skipping }
    ensures level { level result ≤ level skipping + 1 }
{
    match skipping {
        Skipping::Nowhere => match line {
            Line::Else => Skipping::ToEnd(0),
            _ => Skipping::Nowhere,
        },
        Skipping::ToElse(0) => match line {
            Line::Else | Line::End => Skipping::Nowhere,
            Line::If(_, _) => Skipping::ToElse(1),
            Line::Plain(_) => skipping,
        },
        Skipping::ToElse(below) => match line {
            Line::End => Skipping::ToElse(below - 1),
            Line::If(_, _) => Skipping::ToElse(below + 1),
            _ => skipping,
        },
        Skipping::ToEnd(0) => match line {
            Line::End => Skipping::Nowhere,
            Line::If(_, _) => Skipping::ToEnd(1),
            _ => skipping,
        },
        Skipping::ToEnd(below) => match line {
            Line::End => Skipping::ToEnd(below - 1),
            Line::If(_, _) => Skipping::ToEnd(below + 1),
            _ => skipping,
        },
    }
}

fn stops(line: Line, skipping: Skipping) -> bool
    ensures { result ≡ stops_at line skipping }
{
    match (line, skipping) {
        (Line::Plain(_), Skipping::Nowhere) => true,
        (Line::If(_, _), Skipping::Nowhere) => true,
        _ => false,
    }
}

/// The first line from `at` on that asks and is not skipped, or the number of lines.
pub fn settled(lines: &[Line], at: usize, skipping: Skipping) -> usize
    requires level { level skipping ≤ at }
    requires at { at ≤ length lines.now }
    ensures from { at ≤ result }
    ensures within { result ≤ length lines.now }
    ensures settled { is_settled (drop result lines.now) ≡ true }
    ensures same { (vs : Variables) (end : Ending)
        → run (drop result lines.now) Nowhere vs end ≡ run (drop at lines.now) skipping vs end }
{
    let mut place = at;
    let mut skipping = skipping;
    while place < lines.len() {
        let line = lines[place];
        if stops(line, skipping) {
            return place;
        }
        skipping = skip(line, skipping);
        place += 1;
    }
    place
}
