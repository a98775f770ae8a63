//! The elements of the sets of a base, in an ordered set, and how many each set has.

ghost use Rattle.std.specs.Prelude.{◌≡◌, ◌++◌, false, true, IsOkUnless, IfOk, OnErr, OnOk, is_some};
ghost use Rattle.std.specs.FinMap as map;
ghost use Rattle.std.specs.String.{string_bytes};
ghost use Rattle.mlt_types.specs.Maps.{with_entry};
ghost use Rattle.mlt_object_base.specs.BaseText.{element_lines};
ghost use Rattle.mlt_object_base.specs.Kept.{size_in};
ghost use Rattle.mlt_object_kinds.specs.Bases.{element_entry};

use crate::sizes::{Sizes, lower, raise, size_of, take_room};
use crate::text::push_elements;
use mlt_types::Refusal;
use std::alloc::Global;
use std::collections::{BTreeMap, BTreeSet};
use std::marker::Model;

// The elements that are in their sets, each as its set and its number. A contract sees a finite map to nothing.
#[derive(Drop)]
pub(crate) struct Elements {
    keys: BTreeSet<(u16, u32)>,
    sizes: Sizes,
}

impl Model for Elements {
    ghost use Rattle.std.specs.Prelude.{ℕ};
    ghost use Rattle.std.specs.Coded.{coded×, coded_ℕ};
    ghost use Rattle.std.specs.FinMap as map;
    ghost use Rattle.std.specs.FinSet as set;
    ghost use Rattle.mlt_object_base.specs.Kept.{AreCounted, with_nothing};
    ghost use Rattle.mlt_object_kinds.specs.Bases.{element_cmp};

    ghost Value = { map.FinMap element_cmp (Unit {0}) };

    ghost coded = { set.code (coded× coded_ℕ coded_ℕ) };

    ghost view = { λ e. map.from_entries (with_nothing e.keys.keys) };

    ghost invariant = { λ e. AreCounted e.keys.keys e.sizes.entries };
}

#[tactic(auto, using(crate::proofs::Maps::element_in_map, crate::proofs::Maps::element_map_updated))]
impl Elements {
    pub(crate) fn new(alloc: Global) -> Elements
        ensures { result ≡ map.empty }
    {
        Elements {
            keys: BTreeSet::new(alloc),
            sizes: BTreeMap::new(alloc),
        }
    }

    pub(crate) fn has(&self, set: u16, element: u32) -> bool
        ensures { result ≡ is_some (map.get self.now (set, element)) }
    {
        self.keys.contains(&(set, element))
    }

    // How many elements a set has.
    pub(crate) fn size(&self, set: u16) -> u64
        ensures { result ≡ size_in self.now set }
    {
        size_of(&self.sizes, set)
    }

    // An element that is not in its set is in it from now on.
    pub(crate) fn add(&mut self, set: u16, element: u32) -> Result<(), Refusal>
        requires { is_some (map.get self.old (set, element)) ≡ false }
        ensures set { OnOk result
            (self.new ≡ with_entry self.old (set, element) (element_entry true)) }
        ensures err { OnErr result (self.new ≡ self.old) }
        ensures refusal { IsOkUnless result Refusal.OutOfMemory }
    {
        take_room(&mut self.sizes, set)?;
        self.keys.insert((set, element))?;
        raise(&mut self.sizes, set);
        Ok(())
    }

    // An element that is in its set is not in it from now on.
    pub(crate) fn remove(&mut self, set: u16, element: u32)
        requires { is_some (map.get self.old (set, element)) ≡ true }
        ensures { self.new ≡ with_entry self.old (set, element) (element_entry false) }
    {
        self.keys.remove(&(set, element));
        lower(&mut self.sizes, set);
    }

    // Appends a line `element S e` for each element, by rising set and then by rising number.
    pub(crate) fn push_text(&self, text: &mut String) -> Result<(), Refusal>
        ensures text { OnOk result
            (string_bytes text.new ≡ string_bytes text.old ++ element_lines self.now) }
        ensures refusal { IsOkUnless result Refusal.OutOfMemory }
    {
        push_elements(text, &self.keys)
    }
}
