//! A hash file alone.

ghost use Rattle.std.specs.Prelude.{◌≡◌, IfErr, IsOkUnless, IfOk, IsSome, None, OnErr, OnOk, true};
ghost use Rattle.std.specs.FinMap as map;
ghost use Rattle.mlt_page.specs.Stores.{page_at};
ghost use Rattle.mlt_hash_form.specs.File.{depth_of};
ghost use Rattle.mlt_hash_form.specs.Records.{live_records};
ghost use Rattle.mlt_hash_file.specs.HashFiles.{IsFileOf, Refuses, records_after};

use crate::runner::Runner;
use mlt_hash::{Walk, WalkAnswer, open_file};
use mlt_hash_access::LockedStore;
use mlt_hash_form::Root;
use mlt_page::{Page, Store};
use mlt_page_locks::PageLocks;
use mlt_page_subtx::Subtx;
use mlt_types::{Key, Limits, Mode, OpenSet, Pseudo, Refusal, TxId, Value};
use std::alloc::Global;
use std::marker::Model;

/// An extendible hash file (Fagin, Nievergelt, Pippenger and Strong, ACM TODS 4(3), 1979, section 2) in pages, in which
/// one walk runs at a time, to its end. A contract sees its pages, where its header is, its limits, and the function from
/// keys to pseudokeys.
#[derive(Drop)]
pub struct HashFile<P: Pseudo> {
    pub(crate) alloc: Global,
    pub(crate) root: Root<P>,
    pub(crate) runner: Runner,
}

impl<P: Pseudo> Model for HashFile<P> {
    ghost use Rattle.mlt_page.specs.Stores.{page_at};
    ghost use Rattle.mlt_hash_file.specs.Alone.{IsIdle};
    ghost use Rattle.mlt_hash_file.specs.AloneWalks.{IsHashFile};
    ghost use Rattle.mlt_hash_file.specs.HashFiles.{HashFileFields, hash_file_code};

    ghost Value = { HashFileFields P };

    ghost coded = { hash_file_code P.code };

    ghost view = { λ f. record {
      pages = f.runner.store.pages;
      root = f.root.page;
      max_depth = f.root.max_depth;
      max_pages = f.runner.store.max_pages;
      pseudo = f.root.pseudo;
    } };

    ghost invariant = { λ f. IsIdle f.runner
        × IsHashFile (P.bits_of f.root.pseudo) (page_at f.runner.store.pages)
        f.root.page f.root.max_depth };
}

impl<P: Pseudo> HashFile<P> {
    /// A file without records: three pages, with a directory of depth 0. The limits say how deep the directory gets at
    /// most and how many pages there may be; those of transactions say nothing here.
    ///
    /// # Errors
    /// `OutOfMemory`, where a growth was refused.
    pub fn new(alloc: Global, limits: &Limits, pseudo: P) -> Result<HashFile<P>, Refusal>
    where
        P: Drop,
        ensures records { IfOk result (λ file. live_records file.pages ≡ map.empty) }
        ensures depth { IfOk result (λ file. depth_of (page_at file.pages) file.root ≡ 0) }
        ensures pages { IfOk result (λ file. map.len file.pages ≡ 3) }
        ensures limits { IfOk result (λ file. (file.max_depth ≡ limits.now.max_depth)
            × (file.max_pages ≡ limits.now.max_pages) × (file.pseudo ≡ pseudo)) }
        ensures file { IfOk result (λ file. IsFileOf P.bits_of file) }
        ensures refusal { IsOkUnless result Refusal.OutOfMemory }
    {
        let mut store = Store::new(alloc, limits);
        let page = open_file(&mut store)?;
        let one_at_a_time = Limits {
            max_open: 1,
            max_ids: limits.max_ids,
            max_pages: limits.max_pages,
            max_depth: limits.max_depth,
            max_ops: limits.max_ops,
        };
        let locks = PageLocks::new(alloc, &one_at_a_time)?;
        let subtx = Subtx::start(alloc, TxId(1));
        Ok(HashFile {
            alloc,
            root: Root {
                page,
                max_depth: limits.max_depth as u8,
                pseudo,
            },
            runner: Runner {
                subtx,
                pages: LockedStore { store, locks },
                active: OpenSet::new(),
            },
        })
    }

    /// The value of a key's record, if it has one.
    pub fn get(&mut self, key: Key) -> Option<Value>
        ensures value { result ≡ map.get (live_records self.old.pages) key }
        ensures same { self.new ≡ self.old }
        ensures file { IsFileOf P.bits_of self.new }
    {
        let mut walk = Walk::find(self.alloc, key, Mode::Shared);
        let found = self.runner.find(&mut walk, &self.root);
        self.runner.end();
        found
    }

    /// Adds a record of a key that has none.
    ///
    /// # Errors
    /// `NoRoom`, where no split that the depth allows makes room, or the splits that make it need more pages than there
    /// may be. `OutOfMemory`, where a growth was refused to these splits. The file is then as before. Where the key's
    /// bucket has room there is neither.
    pub fn insert(&mut self, key: Key, value: Value) -> Result<(), Refusal>
        requires absent { map.get (live_records self.old.pages) key ≡ None }
        ensures records { OnOk result
            (live_records self.new.pages ≡ map.insert (live_records self.old.pages) key value) }
        ensures limits { self.new ≡ record self.old { pages = self.new.pages } }
        ensures file { IsFileOf P.bits_of self.new }
        ensures err { OnErr result (self.new ≡ self.old) }
        ensures refusal { IfErr result (λ refusal. Refuses P.bits_of self.old key refusal) }
    {
        let mut walk = Walk::find(self.alloc, key, Mode::Exclusive);
        match self.runner.insert(&mut walk, value, &self.root) {
            WalkAnswer::Changed => {
                self.runner.end();
                Ok(())
            }
            WalkAnswer::Refused(refusal) => {
                self.runner.roll_back();
                Err(refusal)
            }
            _ => unreachable!(),
        }
    }

    /// Gives a key's record another value.
    pub fn update(&mut self, key: Key, value: Value)
        requires present { IsSome (map.get (live_records self.old.pages) key) }
        ensures records { live_records self.new.pages
            ≡ map.insert (live_records self.old.pages) key value }
        ensures limits { self.new ≡ record self.old { pages = self.new.pages } }
        ensures file { IsFileOf P.bits_of self.new }
    {
        self.set(key, Some(value));
    }

    /// Removes a key's record.
    pub fn remove(&mut self, key: Key)
        requires present { IsSome (map.get (live_records self.old.pages) key) }
        ensures records { live_records self.new.pages
            ≡ map.remove (live_records self.old.pages) key }
        ensures limits { self.new ≡ record self.old { pages = self.new.pages } }
        ensures file { IsFileOf P.bits_of self.new }
    {
        self.set(key, None);
    }

    // Gives a key's record this value, or removes it where there is none.
    fn set(&mut self, key: Key, value: Option<Value>)
        requires present { IsSome (map.get (live_records self.old.pages) key) }
        ensures records { live_records self.new.pages
            ≡ records_after (live_records self.old.pages) key value }
        ensures limits { self.new ≡ record self.old { pages = self.new.pages } }
        ensures file { IsFileOf P.bits_of self.new }
    {
        let mut walk = Walk::find(self.alloc, key, Mode::Exclusive);
        self.runner.find(&mut walk, &self.root);
        match self.runner.set(&mut walk, value, &self.root) {
            WalkAnswer::Changed => self.runner.end(),
            _ => unreachable!(),
        }
    }

    /// How deep the directory is.
    pub fn depth(&self) -> u8
        ensures { result ≡ depth_of (page_at self.now.pages) self.now.root }
    {
        match self.runner.pages.store.read(self.root.page) {
            Some(Page::Head(header)) => header.get().depth,
            _ => unreachable!(),
        }
    }

    /// How many pages the file has.
    pub fn page_count(&self) -> usize
        ensures { result ≡ map.len self.now.pages }
    {
        self.runner.pages.store.len()
    }
}
