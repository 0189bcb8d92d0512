// What fails in a run.
use crate::row::{number_at, size_at, word_at};
use hk_base::NoMemory;
use hk_outside::{CallKind, Fail as Failing, MemSink};
use std::alloc::Global;
use std::test::Fail;

/// One of the three folders of a run.
#[derive(Clone, Copy, PartialEq, Eq, Drop)]
pub enum Place {
    Source,
    Site,
    Cache,
}

/// Nothing fails; or each call of a folder after the first so many; or one call; or the text after so many bytes.
#[derive(Clone, Copy, Drop)]
pub enum Fault {
    Nothing,
    Fuse(Place, u64),
    Call(Place, Failing),
    Text(usize),
}

impl Fault {
    /// What the arguments of a row name: nothing; `fuse`, a folder and a number of calls; `fails`, a folder, the kind of a
    /// call and its number; `torn` and how many bytes the first write of the store leaves; `text` and a number of bytes.
    pub fn of(args: &[Vec<u8>]) -> Result<Fault, Fail> {
        match word_at(args, 0)? {
            "" => Ok(Fault::Nothing),
            "fuse" => Ok(Fault::Fuse(place_at(args, 1)?, number_at(args, 2)?)),
            "fails" => fails_at(args),
            "torn" => torn_at(args),
            "text" => Ok(Fault::Text(size_at(args, 1)?)),
            _ => Err(Fail::new("no such fault")),
        }
    }

    /// How many calls of a folder have an answer, where that is so.
    pub fn calls_of(self, place: Place) -> Option<u64> {
        match self {
            Fault::Fuse(burnt, calls) if burnt == place => Some(calls),
            _ => None,
        }
    }

    /// The one call of a folder that fails, where that is so.
    pub fn fail_of(self, place: Place) -> Option<Failing> {
        match self {
            Fault::Call(struck, fail) if struck == place => Some(fail),
            _ => None,
        }
    }

    /// An output.
    pub fn sink(self, alloc: Global) -> Result<MemSink, NoMemory> {
        let mut fails = Vec::new(alloc);
        if let Fault::Text(count) = self {
            fails.push((1u64, count))?;
        }
        MemSink::new(alloc, fails)
    }
}

fn fails_at(args: &[Vec<u8>]) -> Result<Fault, Fail> {
    let fail = Failing {
        call: kind_at(args, 2)?,
        number: number_at(args, 3)?,
        torn: None,
    };
    Ok(Fault::Call(place_at(args, 1)?, fail))
}

fn torn_at(args: &[Vec<u8>]) -> Result<Fault, Fail> {
    let fail = Failing {
        call: CallKind::Write,
        number: 1,
        torn: Some(size_at(args, 1)?),
    };
    Ok(Fault::Call(Place::Cache, fail))
}

fn place_at(args: &[Vec<u8>], place: usize) -> Result<Place, Fail> {
    match word_at(args, place)? {
        "source" => Ok(Place::Source),
        "site" => Ok(Place::Site),
        "cache" => Ok(Place::Cache),
        _ => Err(Fail::new("no such folder")),
    }
}

fn kind_at(args: &[Vec<u8>], place: usize) -> Result<CallKind, Fail> {
    match word_at(args, place)? {
        "read" => Ok(CallKind::Read),
        "write" => Ok(CallKind::Write),
        _ => Err(Fail::new("no such call")),
    }
}
