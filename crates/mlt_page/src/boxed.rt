//! Pages of the directory and headers, each in a room of its own.

ghost use Rattle.std.specs.Prelude.{◌≡◌, IfOk, IsOkUnless};

use crate::directory::{DirPage, HeadPage};
use mlt_types::Refusal;
use std::alloc::Global;
use std::marker::Model;

/// A page of the directory. A contract sees the page.
#[derive(Drop)]
pub struct BoxedDir {
    page: Box<DirPage>,
}

impl Model for BoxedDir {
    ghost use Rattle.std.specs.Prelude.{ℕ, List};
    ghost use Rattle.std.specs.Coded.{coded_list, coded_ℕ};

    ghost Value = { List ℕ };

    ghost coded = { coded_list coded_ℕ };

    ghost view = { λ boxed. boxed.page.value };
}

impl BoxedDir {
    /// The page, in a room of its own.
    ///
    /// # Errors
    /// `OutOfMemory`, where that room was refused.
    pub fn new(alloc: Global, page: DirPage) -> Result<BoxedDir, Refusal>
        ensures page { IfOk result (λ boxed. boxed ≡ page) }
        ensures refusal { IsOkUnless result Refusal.OutOfMemory }
    {
        match Box::new(alloc, page) {
            Ok(page) => Ok(BoxedDir { page }),
            Err(_) => Err(Refusal::OutOfMemory),
        }
    }

    /// The page.
    pub fn get(&self) -> &DirPage
        ensures { result.now ≡ self.now }
    {
        &self.page
    }
}

/// A header. A contract sees the header.
#[derive(Drop)]
pub struct BoxedHead {
    page: Box<HeadPage>,
}

impl Model for BoxedHead {
    ghost use Rattle.mlt_page.specs.Values.{HeadFields};
    ghost use Rattle.mlt_page.specs.contracts.directory.HeadPage.{the_row};

    ghost Value = { HeadFields };

    ghost coded = { the_row.coded };

    ghost view = { λ boxed. boxed.page.value };
}

impl BoxedHead {
    /// The header, in a room of its own.
    ///
    /// # Errors
    /// `OutOfMemory`, where that room was refused.
    pub fn new(alloc: Global, page: HeadPage) -> Result<BoxedHead, Refusal>
        ensures page { IfOk result (λ boxed. boxed ≡ page) }
        ensures refusal { IsOkUnless result Refusal.OutOfMemory }
    {
        match Box::new(alloc, page) {
            Ok(page) => Ok(BoxedHead { page }),
            Err(_) => Err(Refusal::OutOfMemory),
        }
    }

    /// The header.
    pub fn get(&self) -> &HeadPage
        ensures { result.now ≡ self.now }
    {
        &self.page
    }
}
