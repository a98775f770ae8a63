//! Which objects a request lists.

use crate::json::{NumberedObject, Objects};
use crate::operated::Operated;
use crate::view::{ObjectsView, WantedObjects};
use mlt_types::{Cell, Key};
use mlt_work_waits::tuning::ENOUGH_OBJECTS;
use std::alloc::{AllocError, Global};

/// What is said where a query asks for none.
pub(crate) const LISTINGS: &str =
    "Expected /base?kind=account, kind=counter or kind=set&of=SET, and from=PLACE.\n";

/// What is asked for: the objects of a kind, or the elements of a set, from a place on.
#[derive(Clone, Copy)]
pub(crate) struct Listing {
    kind: ListedKind,
    from: u32,
}

/// Of which kind they are.
#[derive(Clone, Copy)]
enum ListedKind {
    Accounts,
    Elements(u16),
    Counters,
}

impl ListedKind {
    /// The number of the key of this object.
    fn key(self, number: u32) -> u64 {
        let cell = match self {
            ListedKind::Accounts => Cell::Account(number),
            ListedKind::Elements(set) => Cell::Element(set, number),
            ListedKind::Counters => Cell::Counter(number),
        };
        Key::of(&cell).number()
    }
}

/// The parameters of a query, each at most once.
#[derive(Clone, Copy)]
struct Parameters<'a> {
    kind: Option<&'a str>,
    of: Option<&'a str>,
    from: Option<&'a str>,
}

impl<'a> Parameters<'a> {
    /// Those of a query. `None`, where it has others, or one twice.
    fn read(query: &'a str) -> Option<Parameters<'a>> {
        let mut parameters = Parameters {
            kind: None,
            of: None,
            from: None,
        };
        for field in query.split('&') {
            let (name, value) = field.split_once('=')?;
            let parameter = match name.as_bytes() {
                b"kind" => &mut parameters.kind,
                b"of" => &mut parameters.of,
                b"from" => &mut parameters.from,
                _ => return None,
            };
            if parameter.replace(value).is_some() {
                return None;
            }
        }
        Some(parameters)
    }
}

impl Listing {
    /// What a query asks for: `kind=account`, `kind=counter`, or `kind=set&of=SET`, each with `from=PLACE` where the list is to
    /// begin later. `None`, where it is none of these.
    pub(crate) fn read(query: &str) -> Option<Listing> {
        let Parameters { kind, of, from } = Parameters::read(query)?;
        let kind = match (kind?.as_bytes(), of) {
            (b"account", None) => ListedKind::Accounts,
            (b"counter", None) => ListedKind::Counters,
            (b"set", Some(set)) => ListedKind::Elements(set.parse::<u16>().ok()?),
            _ => return None,
        };
        let from = from.unwrap_or("0").parse::<u32>().ok()?;
        Some(Listing { kind, from })
    }

    /// The objects, by their numbers.
    ///
    /// # Errors
    /// Where a growth was refused.
    pub(crate) fn objects<O: Operated>(
        &self,
        alloc: Global,
        operated: &O,
    ) -> Result<Objects, AllocError> {
        let zero = self.kind.key(0);
        let wanted = WantedObjects {
            from: self.from,
            first: zero,
            last: self.kind.key(u32::MAX),
            enough: ENOUGH_OBJECTS,
        };
        let ObjectsView {
            objects: mut found,
            next,
        } = operated.objects(alloc, &wanted)?;
        found.sort_unstable_by_key(|object| object.key);
        let has_values = !matches!(self.kind, ListedKind::Elements(_));
        let mut objects = Vec::new(alloc);
        for object in &found {
            objects.push(NumberedObject {
                number: object.key.saturating_sub(zero),
                value: has_values.then_some(object.value),
            })?;
        }
        Ok(Objects { objects, next })
    }
}
