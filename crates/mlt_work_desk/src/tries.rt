//! How many tries a desk has left.

ghost use Rattle.std.specs.Prelude.{◌≡◌};
ghost use Rattle.mlt_work_desk.specs.Tries.{tries_begun, tries_called, tries_of, tries_spent};

/// How many tries there are. Each answer that a desk is to wait, or is blocked, spends one.
#[derive(Clone, Copy)]
pub enum Tries {
    /// So many for all that a script asks.
    PerScript(u64),
    /// So many for each operation.
    PerOperation(u64),
}

/// The tries that a desk has.
#[derive(Clone, Copy)]
pub(crate) struct TriesLeft {
    /// How many there are, and for what.
    pub given: Tries,
    /// How many are left.
    pub left: u64,
    /// What the gate answered last: whether the operation may wait.
    pub is_patient: bool,
}

impl TriesLeft {
    /// None are left until a transaction begins, or calls an operation.
    pub fn new(given: Tries) -> TriesLeft
        ensures { result ≡ tries_of given }
    {
        TriesLeft {
            given,
            left: 0,
            is_patient: true,
        }
    }

    /// A transaction is to begin.
    pub fn begin(&mut self)
        ensures { self.new ≡ tries_begun self.old }
    {
        if let Tries::PerScript(count) = self.given {
            self.left = count;
        }
    }

    /// An operation is to be called.
    #[inline(always)]
    pub fn call(&mut self)
        ensures { self.new ≡ tries_called self.old }
    {
        if let Tries::PerOperation(count) = self.given {
            self.left = count;
        }
    }

    /// The operation is to wait, or is blocked.
    pub fn spend(&mut self)
        ensures { self.new ≡ tries_spent self.old }
    {
        self.left = self.left.saturating_sub(1);
    }
}
