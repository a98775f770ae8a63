//! A desk with a list of answers.

ghost use Rattle.std.specs.Prelude.{◌≡◌};
ghost use Rattle.mlt_script_serial.specs.Fakes.{after_answer, next_answer};

use crate::answering::Answering;
use crate::call::DeskAnswer;
use crate::desk::Desk;
use crate::fake_desk::FakeDesk;
use mlt_object_kinds::{ObjOp, ObjReply};
use mlt_types::{Refusal, TxId};

impl FakeDesk {
    /// A desk that gives these answers in turn, and then gives up. An answer of another kind than what is asked gives up
    /// too. An abort is given no answer.
    pub fn new(answers: Vec<DeskAnswer>) -> FakeDesk
        ensures answers { result.answers ≡ answers }
        ensures first { result.at ≡ 0 }
    {
        FakeDesk { answers, at: 0 }
    }

    fn take(&mut self) -> DeskAnswer
        ensures answer { result ≡ next_answer self.old }
        ensures after { self.new ≡ after_answer self.old }
    {
        if self.at < self.answers.len() {
            let answer = self.answers[self.at];
            self.at += 1;
            return answer;
        }
        DeskAnswer::Refused(Refusal::GaveUp)
    }
}

impl Answering for FakeDesk {
    ghost use Rattle.mlt_script_serial.specs.Fakes.{IsGiven};

    ghost moves = { IsGiven };

    fn operation(&mut self, _tx: TxId, _op: ObjOp) -> Result<ObjReply, Refusal> {
        match self.take() {
            DeskAnswer::Replied(reply) => Ok(reply),
            DeskAnswer::Refused(refusal) => Err(refusal),
            _ => Err(Refusal::GaveUp),
        }
    }
}

impl Desk for FakeDesk {
    fn begin(&mut self) -> Result<TxId, Refusal> {
        match self.take() {
            DeskAnswer::Begun(number) => Ok(TxId(number)),
            DeskAnswer::Refused(refusal) => Err(refusal),
            _ => Err(Refusal::GaveUp),
        }
    }

    fn commit(&mut self, _tx: TxId) -> Result<u64, Refusal> {
        match self.take() {
            DeskAnswer::Committed(number) => Ok(number),
            DeskAnswer::Refused(refusal) => Err(refusal),
            _ => Err(Refusal::GaveUp),
        }
    }

    fn abort(&mut self, _tx: TxId) {}
}
