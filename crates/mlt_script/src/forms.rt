//! The forms of a line.

ghost use Rattle.std.specs.Prelude.{◌≡◌};
ghost use Rattle.mlt_script.specs.Forms.{Reads, number_below, letter_at, asking_is_at, source_at, finish, begin_form, let_form, need_form, if_form, ask_form, key_form, form_of};
ghost use Rattle.mlt_text_words.specs.Words.{words_of};

use crate::operations::{asking, keyword, number_16, number_32, wanted};
use crate::statement::{Asking, Ending, Line, Source, Statement, Wanted};
use mlt_text_words::{Keyword, Letter, Word, has_word, next_number, next_word};

/// What a line says.
#[derive(Clone, Copy)]
pub enum LineForm {
    /// A script of this client begins.
    Begins(u16),
    /// A line of the script.
    Says(Line),
    /// The script ends.
    Closes(Ending),
}

#[tactic(auto, using(crate::proofs::Numbers::below_number))]
fn client(text: &[u8]) -> Option<(u16, &[u8])>
    ensures { Reads result (number_below 1000 (words_of text.now)) }
{
    match next_number(text)? {
        (number, rest) if number < 1000 => Some((number as u16, rest)),
        _ => None,
    }
}

#[tactic(auto, unfolding(crate::specs::Forms::letter_at))]
fn variable(text: &[u8]) -> Option<(Letter, &[u8])>
    ensures { Reads result (letter_at (words_of text.now)) }
{
    match next_word(text)? {
        (Word::Variable(letter), rest) => Some((letter, rest)),
        _ => None,
    }
}

/// `OP is REPLY`
#[tactic(auto, unfolding(crate::specs::Forms::asking_is_at))]
fn asking_is(text: &[u8]) -> Option<((Asking, Wanted), &[u8])>
    ensures { Reads result (asking_is_at (words_of text.now)) }
{
    let (first, rest) = keyword(text)?;
    let (asking, rest) = asking(first, rest)?;
    match keyword(rest)? {
        (Keyword::Is, rest) => {
            let (wanted, rest) = wanted(rest)?;
            Some(((asking, wanted), rest))
        }
        _ => None,
    }
}

/// The form, where no word is left.
fn finished(form: LineForm, rest: &[u8]) -> Option<LineForm>
    ensures { result ≡ finish form (words_of rest.now) }
{
    if has_word(rest) { None } else { Some(form) }
}

/// What stands after `begin`.
#[tactic(auto, unfolding(crate::specs::Forms::begin_form))]
fn begin(text: &[u8]) -> Option<LineForm>
    ensures { result ≡ begin_form (words_of text.now) }
{
    if !has_word(text) {
        return Some(LineForm::Begins(0));
    }
    let (client, rest) = client(text)?;
    finished(LineForm::Begins(client), rest)
}

#[tactic(auto, unfolding(crate::specs::Forms::source_at))]
fn source(keyword: Keyword, text: &[u8]) -> Option<(Source, &[u8])>
    ensures { Reads result (source_at keyword (words_of text.now)) }
{
    match keyword {
        Keyword::Balance => {
            let (account, rest) = number_32(text)?;
            Some((Source::Balance(account), rest))
        }
        Keyword::Read => {
            let (counter, rest) = number_32(text)?;
            Some((Source::Read(counter), rest))
        }
        Keyword::Size => {
            let (set, rest) = number_16(text)?;
            Some((Source::Size(set), rest))
        }
        _ => None,
    }
}

/// What stands after `let`.
#[tactic(auto, unfolding(crate::specs::Forms::let_form))]
fn setting(text: &[u8]) -> Option<LineForm>
    ensures { result ≡ let_form (words_of text.now) }
{
    let (letter, rest) = variable(text)?;
    match keyword(rest)? {
        (Keyword::Equals, rest) => {
            let (first, rest) = keyword(rest)?;
            let (source, rest) = source(first, rest)?;
            finished(
                LineForm::Says(Line::Plain(Statement::Let(letter, source))),
                rest,
            )
        }
        _ => None,
    }
}

/// What stands after `need`.
#[tactic(auto, unfolding(crate::specs::Forms::need_form))]
fn need(text: &[u8]) -> Option<LineForm>
    ensures { result ≡ need_form (words_of text.now) }
{
    let ((asking, wanted), rest) = asking_is(text)?;
    finished(
        LineForm::Says(Line::Plain(Statement::Need(asking, wanted))),
        rest,
    )
}

/// What stands after `if`.
#[tactic(auto, unfolding(crate::specs::Forms::if_form))]
fn condition(text: &[u8]) -> Option<LineForm>
    ensures { result ≡ if_form (words_of text.now) }
{
    let ((asking, wanted), rest) = asking_is(text)?;
    finished(LineForm::Says(Line::If(asking, wanted)), rest)
}

/// An operation whose first word is the keyword.
#[tactic(auto, unfolding(crate::specs::Forms::ask_form))]
fn plain(keyword: Keyword, text: &[u8]) -> Option<LineForm>
    ensures { result ≡ ask_form keyword (words_of text.now) }
{
    let (asking, rest) = asking(keyword, text)?;
    finished(LineForm::Says(Line::Plain(Statement::Ask(asking))), rest)
}

/// A line whose first word is the keyword.
#[tactic(auto, unfolding(crate::specs::Forms::key_form))]
fn keyed(keyword: Keyword, rest: &[u8]) -> Option<LineForm>
    ensures { result ≡ key_form keyword (words_of rest.now) }
{
    match keyword {
        Keyword::Begin => begin(rest),
        Keyword::Commit => finished(LineForm::Closes(Ending::Commit), rest),
        Keyword::Abort => finished(LineForm::Closes(Ending::Abort), rest),
        Keyword::Need => need(rest),
        Keyword::Let => setting(rest),
        Keyword::If => condition(rest),
        Keyword::Else => finished(LineForm::Says(Line::Else), rest),
        Keyword::End => finished(LineForm::Says(Line::End), rest),
        _ => plain(keyword, rest),
    }
}

/// What the words of a line say, if they are one of its forms.
#[tactic(auto, unfolding(crate::specs::Forms::form_of))]
pub fn line_form(text: &[u8]) -> Option<LineForm>
    ensures { result ≡ form_of (words_of text.now) }
{
    let (first, rest) = keyword(text)?;
    keyed(first, rest)
}
