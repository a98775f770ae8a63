//! Operations, replies and lines of a plain form, which has one space between words and nothing else, read in one pass.
//! Nearly all input is of it. What is not is read in the general way, with the same answer.

ghost use Rattle.std.specs.Prelude.{◌≡◌, ◌∷◌, ◌++◌, [], IfSome};
ghost use Rattle.mlt_script.specs.Plain.{BeginsWithForm, BeginsWithOp, BeginsWithReply, GoesOnWithOp};
ghost use Rattle.mlt_text_words.specs.Fronts.{BeginsWithWords};
ghost use Rattle.mlt_text_words.specs.Words.{spelling};

use crate::forms::LineForm;
use crate::operations::{op_of_amount, op_of_element, op_of_one, reply};
use crate::statement::Ending;
use mlt_object_kinds::{ObjOp, ObjReply};
use mlt_text_words::{Keyword, Word, after, front_keyword, front_number};

// A number below 2^64, and the text behind it.
#[tactic(auto, using(mlt_text_words::proofs::Fronts::number_words))]
#[inline(always)]
fn number_64(text: &[u8]) -> Option<(u64, &[u8])>
    ensures { IfSome result (λ x. BeginsWithWords text.now (Word.Number x.0 ∷ []) 20 x.1.now) }
{
    front_number(text)
}

// The keyword of an operation that a text begins with, and the text behind it and a space. At most two keywords begin with
// one letter, so it is compared with two at most.
#[inline(always)]
fn op_word(text: &[u8]) -> Option<(Keyword, &[u8])>
    ensures { IfSome result (λ x. text.now ≡ spelling x.0 ++ 32 ∷ x.1.now) }
{
    match *text.first()? {
        b'a' => Some((Keyword::Add, after(text, b"add ")?)),
        b'b' => Some((Keyword::Balance, after(text, b"balance ")?)),
        b'c' => Some((Keyword::Close, after(text, b"close ")?)),
        b'd' => match after(text, b"deposit ") {
            Some(rest) => Some((Keyword::Deposit, rest)),
            None => Some((Keyword::Down, after(text, b"down ")?)),
        },
        b'h' => Some((Keyword::Has, after(text, b"has ")?)),
        b'o' => Some((Keyword::Open, after(text, b"open ")?)),
        b'r' => match after(text, b"read ") {
            Some(rest) => Some((Keyword::Read, rest)),
            None => Some((Keyword::Remove, after(text, b"remove ")?)),
        },
        b's' => Some((Keyword::Size, after(text, b"size ")?)),
        b'u' => Some((Keyword::Up, after(text, b"up ")?)),
        b'w' => Some((Keyword::Withdraw, after(text, b"withdraw ")?)),
        _ => None,
    }
}

// What stands behind the keyword of an operation and a space, and the text behind it.
#[inline(always)]
fn op_after(keyword: Keyword, text: &[u8]) -> Option<(ObjOp, &[u8])>
    ensures { IfSome result (λ x. GoesOnWithOp keyword text.now x.0 x.1.now) }
{
    let (number, rest) = number_64(text)?;
    if let Some(op) = op_of_one(keyword, number) {
        return Some((op, rest));
    }
    let (second, rest) = number_64(after(rest, b" ")?)?;
    if let Some(op) = op_of_amount(keyword, number) {
        return Some((op.with(second), rest));
    }
    let op = op_of_element(keyword, number, second)?;
    Some((op, rest))
}

/// The operation that a text begins with, its amount a number, and the text behind it, which may go on with any byte:
/// where that is a space, a tab or the end of the line, `read_op` reads the same. `None` also where other than one space
/// stands between its words, though `read_op` may read it. Of more than 19 digits of a number the first 19 are taken.
#[inline(always)]
pub fn front_op(text: &[u8]) -> Option<(ObjOp, &[u8])>
    ensures { IfSome result (λ x. BeginsWithOp text.now x.0 x.1.now) }
{
    let (keyword, rest) = op_word(text)?;
    op_after(keyword, rest)
}

/// The reply that a text begins with, a word or `is v` with one space, and the text behind it, which may go on with any
/// byte: where that is a space, a tab or the end of the line, `read_reply` reads the same. `None` also where `read_reply`
/// reads another form. Of more than 19 digits the first 19 are taken.
pub fn front_reply(text: &[u8]) -> Option<(ObjReply, &[u8])>
    ensures { IfSome result (λ x. BeginsWithReply text.now x.0 x.1.now) }
{
    let (keyword, rest) = front_keyword(text)?;
    match keyword {
        Keyword::Is => {
            let (value, rest) = number_64(after(rest, b" ")?)?;
            Some((ObjReply::Is(value), rest))
        }
        _ => Some((reply(keyword)?, rest)),
    }
}

/// The operation of the first line of a text, where one space stands between words and an LF directly behind, and the text
/// after it. `None` also where the line has another form: then it is read in the general way.
#[inline(always)]
pub fn op_line(text: &[u8]) -> Option<(ObjOp, &[u8])>
    ensures { IfSome result (λ x. BeginsWithOp text.now x.0 (10 ∷ x.1.now)) }
{
    let (op, rest) = front_op(text)?;
    let rest = after(rest, b"\n")?;
    Some((op, rest))
}

/// The form of the first line of a text, where it is `begin`, `begin K` or `commit` with an LF directly behind, and the
/// text after it. `None` also where it has another form.
pub fn frame_line(text: &[u8]) -> Option<(LineForm, &[u8])>
    ensures { IfSome result (λ x. BeginsWithForm text.now x.0 x.1.now) }
{
    if let Some(rest) = after(text, b"begin\n") {
        return Some((LineForm::Begins(0), rest));
    }
    if let Some(rest) = after(text, b"commit\n") {
        return Some((LineForm::Closes(Ending::Commit), rest));
    }
    match number_64(after(text, b"begin ")?)? {
        (client, rest) if client < 1000 => {
            let rest = after(rest, b"\n")?;
            Some((LineForm::Begins(client as u16), rest))
        }
        _ => None,
    }
}
