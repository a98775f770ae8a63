//! The steps of the counter.

ghost use Rattle.std.specs.Prelude.{◌≡◌, ◌<◌, ◌^◌, [], IfOk};
ghost use Rattle.mlt_work.specs.Claims.{AreAllBelow, HasAll, after_draw, after_join, after_split, first_view, new_view};
ghost use Rattle.mlt_work.specs.ClaimHandles.{IsBeside, IsOf, view_of};

use crate::claim_handles::{ClaimHandle, ClientCounter, Draws};
use atomic_table::Table;
use std::alloc::{AllocError, Global};

impl ClientCounter {
    /// A counter for that many clients, and its first handle.
    ///
    /// # Errors
    /// Where memory for the one word is refused.
    pub(crate) fn new(
        alloc: Global,
        clients: u64,
    ) -> Result<(ClientCounter, ClaimHandle), AllocError>
        requires { clients < 2 ^ 63 }
        ensures of { IfOk result (λ made. IsOf made.0 made.1) }
        ensures view { IfOk result (λ made. view_of made.1 ≡ first_view clients) }
    {
        let (table, seat) = Table::of_words(alloc, &[0], &clients)?;
        Ok((ClientCounter { table }, ClaimHandle { seat }))
    }

    /// A further handle. It may draw until it has drawn one number past the last client.
    pub(crate) fn split(&self, first: &mut ClaimHandle) -> ClaimHandle
        requires of { IsOf self.now first.old }
        requires overruns { 0 < (view_of first.old).overruns }
        requires parts { 1 < (view_of first.old).parts }
        ensures beside { IsBeside first.old first.new }
        ensures of { IsOf self.now result }
        ensures first { view_of first.new ≡ after_split (view_of first.old) }
        ensures new { view_of result ≡ new_view (view_of first.old).clients }
    {
        let seat = self.table.shared.split_seat::<Draws>(&mut first.seat);
        ClaimHandle { seat }
    }

    /// The next number, which no other handle draws.
    pub(crate) fn draw(&self, claim_handle: &mut ClaimHandle) -> u64
        requires of { IsOf self.now claim_handle.old }
        requires overruns { 0 < (view_of claim_handle.old).overruns }
        requires parts { 0 < (view_of claim_handle.old).parts }
        ensures beside { IsBeside claim_handle.old claim_handle.new }
        ensures drawn { view_of claim_handle.new ≡ after_draw (view_of claim_handle.old) result }
    {
        self.table
            .shared
            .fetch_add::<Draws>(&mut claim_handle.seat, 0, 1)
    }

    /// The first handle takes in what the other one drew.
    pub(crate) fn join(&self, first: &mut ClaimHandle, other: ClaimHandle)
        requires first { IsOf self.now first.old }
        requires other { IsOf self.now other }
        requires parts { 0 < (view_of first.old).parts }
        ensures beside { IsBeside first.old first.new }
        ensures both { view_of first.new ≡ after_join (view_of first.old) (view_of other) }
    {
        let ClaimHandle { seat } = other;
        self.table.shared.join_seat::<Draws>(&mut first.seat, seat);
    }

    /// How many numbers were drawn. The handle that has taken in all others drew just the numbers below that, each once.
    pub(crate) fn close(self, first: ClaimHandle) -> u64
        requires of { IsOf self first }
        requires all { HasAll (view_of first) }
        ensures { AreAllBelow result (view_of first).drawn }
    {
        let ClientCounter { table } = self;
        let ClaimHandle { seat } = first;
        let closed = table.close_with(seat);
        let word = closed.word(0);
        closed.free();
        word
    }
}
