//! Operations and replies, as words.

ghost use Rattle.std.specs.Prelude.{◌≡◌, ◌≤◌, ◌^◌};
ghost use Rattle.mlt_script.specs.Forms.{Reads, if_below, key_at, number_below, amount_at, op_of_one, op_of_amount, element_op, op_of_element, asking_at, op_at, reply_word, reply_at, wanted_at};
ghost use Rattle.mlt_text_words.specs.Words.{words_of};

use crate::statement::{AmountOp, Asking, Wanted};
use mlt_object_kinds::{AccountOp, CounterOp, ElementOp, ObjOp, ObjReply};
use mlt_text_words::{Keyword, Word, next_number, next_word};

/// A keyword.
#[tactic(auto, unfolding(crate::specs::Forms::key_at))]
pub fn keyword(text: &[u8]) -> Option<(Keyword, &[u8])>
    ensures { Reads result (key_at (words_of text.now)) }
{
    match next_word(text)? {
        (Word::Key(keyword), rest) => Some((keyword, rest)),
        _ => None,
    }
}

fn to_16(number: u64) -> Option<u16>
    ensures { result ≡ if_below (2 ^ 16) number number }
{
    if number < 1 << 16 {
        Some(number as u16)
    } else {
        None
    }
}

fn to_32(number: u64) -> Option<u32>
    ensures { result ≡ if_below (2 ^ 32) number number }
{
    if number < 1 << 32 {
        Some(number as u32)
    } else {
        None
    }
}

/// A number below 2^16.
#[tactic(auto, using(crate::proofs::Numbers::below_number))]
pub fn number_16(text: &[u8]) -> Option<(u16, &[u8])>
    ensures { Reads result (number_below (2 ^ 16) (words_of text.now)) }
{
    match next_number(text)? {
        (number, rest) if number < 1 << 16 => Some((number as u16, rest)),
        _ => None,
    }
}

/// A number below 2^32.
#[tactic(auto, using(crate::proofs::Numbers::below_number))]
pub fn number_32(text: &[u8]) -> Option<(u32, &[u8])>
    ensures { Reads result (number_below (2 ^ 32) (words_of text.now)) }
{
    match next_number(text)? {
        (number, rest) if number < 1 << 32 => Some((number as u32, rest)),
        _ => None,
    }
}

/// A number below 2^64.
#[tactic(auto, using(crate::proofs::Numbers::below_number))]
fn number_64(text: &[u8]) -> Option<(u64, &[u8])>
    ensures { Reads result (number_below (2 ^ 64) (words_of text.now)) }
{
    next_number(text)
}

#[tactic(auto, unfolding(crate::specs::Forms::amount_at))]
fn amount(op: AmountOp, text: &[u8]) -> Option<(Asking, &[u8])>
    ensures { Reads result (amount_at op (words_of text.now)) }
{
    if let Some((number, rest)) = next_number(text) {
        return Some((Asking::Fixed(op.with(number)), rest));
    }
    match next_word(text)? {
        (Word::Variable(letter), rest) => Some((Asking::By(op, letter), rest)),
        _ => None,
    }
}

/// The operation of a keyword and one number.
#[tactic(auto, unfolding(crate::specs::Forms::op_of_one))]
#[inline(always)]
pub fn op_of_one(keyword: Keyword, number: u64) -> Option<ObjOp>
    ensures { result ≡ op_of_one keyword number }
{
    match keyword {
        Keyword::Open => Some(ObjOp::Account(to_32(number)?, AccountOp::Open)),
        Keyword::Close => Some(ObjOp::Account(to_32(number)?, AccountOp::Close)),
        Keyword::Balance => Some(ObjOp::Account(to_32(number)?, AccountOp::Balance)),
        Keyword::Read => Some(ObjOp::Counter(to_32(number)?, CounterOp::Read)),
        Keyword::Size => Some(ObjOp::Size(to_16(number)?)),
        _ => None,
    }
}

/// The operation of a keyword, a number and an amount, without the amount.
#[tactic(auto, unfolding(crate::specs::Forms::op_of_amount))]
#[inline(always)]
pub fn op_of_amount(keyword: Keyword, number: u64) -> Option<AmountOp>
    ensures { result ≡ op_of_amount keyword number }
{
    match keyword {
        Keyword::Deposit => Some(AmountOp::Deposit(to_32(number)?)),
        Keyword::Withdraw => Some(AmountOp::Withdraw(to_32(number)?)),
        Keyword::Up => Some(AmountOp::Up(to_32(number)?)),
        Keyword::Down => Some(AmountOp::Down(to_32(number)?)),
        _ => None,
    }
}

#[tactic(auto, unfolding(crate::specs::Forms::element_op))]
fn element_op(keyword: Keyword) -> Option<ElementOp>
    ensures { result ≡ element_op keyword }
{
    match keyword {
        Keyword::Add => Some(ElementOp::Add),
        Keyword::Remove => Some(ElementOp::Remove),
        Keyword::Has => Some(ElementOp::Has),
        _ => None,
    }
}

/// The operation of a keyword, a set and an element.
#[tactic(auto, unfolding(crate::specs::Forms::op_of_element))]
#[inline(always)]
pub fn op_of_element(keyword: Keyword, set: u64, element: u64) -> Option<ObjOp>
    ensures { result ≡ op_of_element keyword set element }
{
    let op = element_op(keyword)?;
    Some(ObjOp::Element(to_16(set)?, to_32(element)?, op))
}

/// The operation whose first word is the keyword. The text is that behind the keyword.
#[tactic(auto, unfolding(crate::specs::Forms::asking_at))]
pub fn asking(keyword: Keyword, text: &[u8]) -> Option<(Asking, &[u8])>
    ensures { Reads result (asking_at keyword (words_of text.now)) }
{
    let (number, rest) = next_number(text)?;
    if let Some(op) = op_of_one(keyword, number) {
        return Some((Asking::Fixed(op), rest));
    }
    if let Some(op) = op_of_amount(keyword, number) {
        return amount(op, rest);
    }
    let (element, rest) = next_number(rest)?;
    let op = op_of_element(keyword, number, element)?;
    Some((Asking::Fixed(op), rest))
}

/// The operation at the front of a text, its amount a number, and a text of the words behind it. Takes no
/// memory.
#[tactic(auto, unfolding(crate::specs::Forms::op_at))]
pub fn read_op(text: &[u8]) -> Option<(ObjOp, &[u8])>
    ensures { Reads result (op_at (words_of text.now)) }
{
    let (keyword, rest) = keyword(text)?;
    match asking(keyword, rest)? {
        (Asking::Fixed(op), rest) => Some((op, rest)),
        _ => None,
    }
}

/// The reply that is one word.
#[tactic(auto, unfolding(crate::specs::Forms::reply_word))]
pub fn reply(keyword: Keyword) -> Option<ObjReply>
    ensures { result ≡ reply_word keyword }
{
    match keyword {
        Keyword::Opened => Some(ObjReply::Opened),
        Keyword::Exists => Some(ObjReply::Exists),
        Keyword::Closed => Some(ObjReply::Closed),
        Keyword::NotEmpty => Some(ObjReply::NotEmpty),
        Keyword::Done => Some(ObjReply::Done),
        Keyword::Over => Some(ObjReply::Over),
        Keyword::Short => Some(ObjReply::Short),
        Keyword::Missing => Some(ObjReply::Missing),
        Keyword::Added => Some(ObjReply::Added),
        Keyword::Present => Some(ObjReply::Present),
        Keyword::Removed => Some(ObjReply::Removed),
        Keyword::Absent => Some(ObjReply::Absent),
        Keyword::Yes => Some(ObjReply::Yes),
        Keyword::No => Some(ObjReply::No),
        _ => None,
    }
}

/// The reply at the front of a text, a word or `is v`, and a text of the words behind it. Takes no memory.
#[tactic(auto, unfolding(crate::specs::Forms::reply_at, crate::specs::Forms::reply_after))]
pub fn read_reply(text: &[u8]) -> Option<(ObjReply, &[u8])>
    ensures { Reads result (reply_at (words_of text.now)) }
{
    match keyword(text)? {
        (Keyword::Is, rest) => {
            let (value, rest) = number_64(rest)?;
            Some((ObjReply::Is(value), rest))
        }
        (keyword, rest) => {
            let reply = reply(keyword)?;
            Some((reply, rest))
        }
    }
}

/// A reply word, or an amount, which stands for `is v`.
#[tactic(auto, unfolding(crate::specs::Forms::wanted_at))]
pub fn wanted(text: &[u8]) -> Option<(Wanted, &[u8])>
    ensures { Reads result (wanted_at (words_of text.now)) }
{
    match next_word(text)? {
        (Word::Key(keyword), rest) => {
            let reply = reply(keyword)?;
            Some((Wanted::Reply(reply), rest))
        }
        (Word::Number(value), rest) => Some((Wanted::Reply(ObjReply::Is(value)), rest)),
        (Word::Variable(letter), rest) => Some((Wanted::ValueOf(letter), rest)),
        _ => None,
    }
}
