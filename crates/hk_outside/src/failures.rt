// Which calls of a tree in memory fail.
ghost use Rattle.std.specs.Prelude.{◌≡◌, ◌≤◌, ◌+◌, find, option_copied};
ghost use Rattle.hk_outside.specs.Failing as spec;
ghost use Rattle.hk_outside.specs.Failing.{failing, fate_of, begun, raised};

use crate::call::{CallKind, Calls, Fail};
use std::marker::Model;

/// What becomes of a call: it works, fails and does nothing, or leaves so many first bytes of what was to be written.
#[derive(Clone, Copy, Debug, PartialEq, Eq, Drop)]
pub enum Fate {
    Works,
    Fails,
    Tears(usize),
}

/// The calls that are to fail, the calls so far, and how many failed.
#[derive(Drop)]
pub struct Failures {
    fails: Vec<Fail>,
    fuse: Option<u64>,
    calls: Calls,
    faults: u64,
}

impl Model for Failures {
    ghost use Rattle.hk_outside.specs.Failing.{Failing};

    ghost Value = { Failing };

    ghost view = { λ f. record { fails = f.fails.items; fuse = f.fuse; calls = f.calls; faults = f.faults } };
}

impl Failures {
    pub fn new(fails: Vec<Fail>, fuse: Option<u64>) -> Failures
        ensures { result ≡ failing fails.items fuse }
    {
        Failures {
            fails,
            fuse,
            calls: Calls::none(),
            faults: 0,
        }
    }

    /// Counts a call, and says what becomes of it. Linear in the calls that are to fail.
    pub fn begin(&mut self, kind: CallKind) -> Fate
        ensures fate { result ≡ fate_of kind self.old }
        ensures counted { self.new ≡ begun kind self.old }
    {
        let fate = self.next_fate(kind);
        self.calls.count(kind);
        fate
    }

    /// Counts a call that failed.
    pub fn raise(&mut self)
        ensures raised { self.new ≡ raised self.old }
        ensures later { self.old.faults ≤ self.new.faults }
    {
        self.faults = self.faults.saturating_add(1);
    }

    fn next_fate(&self, kind: CallKind) -> Fate
        ensures { result ≡ fate_of kind self.now }
    {
        if is_burnt(self.fuse, self.calls.all) {
            Fate::Fails
        } else {
            member_fate(find_member(self.fails.as_slice(), kind, self.calls.made(kind)))
        }
    }
}

fn is_burnt(fuse: Option<u64>, all: u64) -> bool
    ensures { result ≡ spec.is_burnt fuse all }
{
    match fuse {
        None => false,
        Some(calls) => calls <= all,
    }
}

fn member_fate(member: Option<&Fail>) -> Fate
    ensures { result ≡ spec.member_fate (option_copied member.entry) }
{
    match member {
        None => Fate::Works,
        Some(fail) => match fail.torn {
            None => Fate::Fails,
            Some(count) => Fate::Tears(count),
        },
    }
}

/// The first member that names the call after so many of its kind.
fn find_member(fails: &[Fail], kind: CallKind, made: u64) -> Option<&Fail>
    ensures { option_copied result ≡ find (spec.names kind (made + 1)) fails.now }
{
    fails.iter().find(|fail| is_next(fail, kind, made))
}

fn is_next(fail: &Fail, kind: CallKind, made: u64) -> bool
    ensures { result ≡ spec.names kind (made + 1) fail.now }
{
    fail.call.is(kind) && fail.number > made && fail.number - made == 1
}
