//! Hash files for one caller.

use Act::{Insert, Remove, Sees};
use mlt_hash_file::HashFile;
use mlt_test_tools::same_at;
use mlt_types::{Cell, Key, Limits, Low, Refusal};
use std::alloc::Global;
use std::process::Abort;
use std::test::Fail;

/// What is done to a hash file, or is then to be seen of it. An account is added with a value of its number and 100.
#[derive(Clone, Copy)]
enum Act {
    /// Adds these accounts, which are not there. This is the answer to each.
    Insert(&'static [u32], Result<(), Refusal>),
    /// Removes this account, which is there.
    Remove(u32),
    /// Each of these accounts has the value that it was added with, and the directory has this depth.
    Sees(&'static [u32], u8),
}

fn insert(
    rt: &impl Abort,
    file: &mut HashFile<Low>,
    numbers: &[u32],
    wanted: Result<(), Refusal>,
) -> Result<(), Fail> {
    for number in numbers {
        let key = Key::of(&Cell::Account(*number));
        let found = file.get(key);
        assert!(rt; found.is_none());
        same_at(number, &file.insert(key, u64::from(*number) + 100), &wanted)?;
    }
    Ok(())
}

fn remove(rt: &impl Abort, file: &mut HashFile<Low>, number: u32) {
    let key = Key::of(&Cell::Account(number));
    let found = file.get(key);
    assert!(rt; found.is_some());
    file.remove(key);
}

fn see(file: &mut HashFile<Low>, numbers: &[u32], depth: u8) -> Result<(), Fail> {
    for number in numbers {
        let found = (file.get(Key::of(&Cell::Account(*number))), file.depth());
        same_at(number, &found, &(Some(u64::from(*number) + 100), depth))?;
    }
    Ok(())
}

// A file of up to this depth goes through these acts.
fn goes(rt: &impl Abort, alloc: Global, max_depth: u32, row: &[Act]) -> Result<(), Fail> {
    let limits = Limits::checked(1, 1, 100, max_depth, 1)?;
    let mut file = HashFile::new(alloc, &limits, Low)?;
    for act in row {
        match *act {
            Insert(numbers, wanted) => insert(rt, &mut file, numbers, wanted)?,
            Remove(number) => remove(rt, &mut file, number),
            Sees(numbers, depth) => see(&mut file, numbers, depth)?,
        }
    }
    Ok(())
}

// They fill a bucket.
const EIGHT: &[u32] = &[0, 1, 2, 3, 4, 5, 6, 7];

#[test]
fn direct_calls(rt: HostRuntime) -> Result<(), Fail> {
    let row = [
        Insert(EIGHT, Ok(())),
        Insert(&[32_768], Ok(())),
        Sees(EIGHT, 1),
        Sees(&[32_768], 1),
    ];
    goes(&rt, rt.alloc(), 16, &row)
}

const FULL: &[Act] = &[
    Insert(EIGHT, Ok(())),
    Insert(&[8], Err(Refusal::NoRoom)),
    Sees(EIGHT, 0),
    Insert(&[256], Ok(())),
    Sees(EIGHT, 8),
    Sees(&[256], 8),
];

const AFTER_A_REMOVAL: &[Act] = &[
    Insert(EIGHT, Ok(())),
    Remove(0),
    Insert(&[8], Ok(())),
    Sees(&[1, 2, 3, 4, 5, 6, 7, 8], 0),
];

#[test]
fn hash_file_depth_eight(rt: HostRuntime) -> Result<(), Fail> {
    goes(&rt, rt.alloc(), 8, FULL)?;
    goes(&rt, rt.alloc(), 8, AFTER_A_REMOVAL)
}
