// The calls of a tree: their kinds, how many were made, and which are to fail.
ghost use Rattle.std.specs.Prelude.{◌≡◌};
ghost use Rattle.hk_outside.specs.Call as spec;
ghost use Rattle.hk_outside.specs.Call.{same_kind, no_calls};

/// The kind of a call of a tree.
#[derive(Clone, Copy, Debug, PartialEq, Eq, Drop)]
pub enum CallKind {
    List,
    Read,
    Write,
    Remove,
}

impl CallKind {
    pub(crate) fn is(self, other: CallKind) -> bool
        ensures { result ≡ same_kind self other }
    {
        match (self, other) {
            (CallKind::List, CallKind::List) => true,
            (CallKind::Read, CallKind::Read) => true,
            (CallKind::Write, CallKind::Write) => true,
            (CallKind::Remove, CallKind::Remove) => true,
            _ => false,
        }
    }
}

/// A call that is to fail: the one of its kind with this number, counted from 1. A write with `torn` leaves so many first
/// bytes of what was to be written, or all of them where there are fewer. Any other call that fails does nothing.
#[derive(Clone, Copy, Debug, PartialEq, Eq, Drop)]
pub struct Fail {
    pub call: CallKind,
    pub number: u64,
    pub torn: Option<usize>,
}

/// How many calls were made, of each kind and of all. A count stands still at its type's end.
#[derive(Debug, Drop)]
pub struct Calls {
    pub lists: u64,
    pub reads: u64,
    pub writes: u64,
    pub removes: u64,
    pub all: u64,
}

impl Calls {
    pub fn none() -> Calls
        ensures { result ≡ no_calls }
    {
        Calls {
            lists: 0,
            reads: 0,
            writes: 0,
            removes: 0,
            all: 0,
        }
    }

    pub fn made(&self, kind: CallKind) -> u64
        ensures { result ≡ spec.made kind self.now }
    {
        match kind {
            CallKind::List => self.lists,
            CallKind::Read => self.reads,
            CallKind::Write => self.writes,
            CallKind::Remove => self.removes,
        }
    }

    pub fn count(&mut self, kind: CallKind)
        ensures { self.new ≡ spec.counted kind self.old }
    {
        self.all = self.all.saturating_add(1);
        match kind {
            CallKind::List => self.lists = self.lists.saturating_add(1),
            CallKind::Read => self.reads = self.reads.saturating_add(1),
            CallKind::Write => self.writes = self.writes.saturating_add(1),
            CallKind::Remove => self.removes = self.removes.saturating_add(1),
        }
    }
}
