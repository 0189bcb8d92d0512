// A header's lines, read one after another.
ghost use Rattle.std.specs.Prelude.{◌≡◌, [], None, Some, IfOk, if◌then◌else◌, option_map};
ghost use Rattle.hk_meta.specs.Line.{line_of};
ghost use Rattle.hk_meta.specs.Reader as spec;

use crate::Metadata;
use crate::joined::Joined;
use crate::line::{Kind, read_line};
use hk_base::NoMemory;
use std::alloc::Global;
use std::marker::Model;

/// The list of a key that has members to come.
#[derive(Drop)]
struct OpenList {
    key: Vec<u8>,
    members: Joined,
}

impl Model for OpenList {
    ghost use Rattle.std.specs.Prelude.{List, ℕ, Option};

    ghost Value = { List ℕ × Option (List ℕ) };

    ghost view = { λ o. (o.key.items, o.members) };
}

/// What the lines so far say.
#[derive(Drop)]
pub(crate) struct Reader {
    meta: Metadata,
    list: Option<OpenList>,
}

impl Model for Reader {
    ghost use Rattle.hk_meta.specs.Reader.{State};

    ghost Value = { State };

    ghost view = { λ r. (r.meta, r.list) };
}

impl Reader {
    pub fn new(alloc: Global) -> Reader
        ensures { result ≡ ([], None) }
    {
        Reader {
            meta: Metadata::new(alloc),
            list: None,
        }
    }

    /// Reads one more line, without its end, and says whether it is one.
    pub fn read(&mut self, alloc: Global, line: &[u8]) -> Result<bool, NoMemory>
        ensures { IfOk result (λ fits. spec.step self.old (line_of line.now) ≡ (if fits then Some self.new else None)) }
    {
        match read_line(alloc, line)? {
            Kind::Ignored => Ok(true),
            Kind::Member(value) => self.add_member(&value),
            Kind::Key(key, value) => {
                self.add_key(alloc, key, value)?;
                Ok(true)
            }
            Kind::Refused => Ok(false),
        }
    }

    fn add_member(&mut self, value: &[u8]) -> Result<bool, NoMemory>
        ensures { IfOk result (λ fits. spec.with_member value.now self.old.0 self.old.1 ≡ (if fits then Some self.new else None)) }
    {
        match self.list.take() {
            Some(mut list) => {
                list.members.push(value)?;
                self.list = Some(list);
                Ok(true)
            }
            None => Ok(false),
        }
    }

    fn close_list(&mut self) -> Result<(), NoMemory>
        ensures { IfOk result (λ _. self.new ≡ (spec.close self.old, None)) }
    {
        if let Some(list) = self.list.take() {
            self.meta.put(list.key, list.members.into_value())?;
        }
        Ok(())
    }

    fn add_key(&mut self, alloc: Global, key: &[u8], value: Option<Vec<u8>>) -> Result<(), NoMemory>
        ensures { IfOk result (λ _. self.new ≡ spec.with_key key.now (option_map (λ v. v.items) value) (spec.close self.old)) }
    {
        self.close_list()?;
        let key = Vec::from_slice(alloc, key)?;
        match value {
            Some(value) => {
                self.meta.put(key, value)?;
                Ok(())
            }
            None => {
                self.list = Some(OpenList {
                    key,
                    members: Joined::new(alloc),
                });
                Ok(())
            }
        }
    }

    /// The metadata after the last line.
    pub fn finish(mut self) -> Result<Metadata, NoMemory>
        ensures { IfOk result (λ meta. meta ≡ spec.close self) }
    {
        self.close_list()?;
        Ok(self.meta)
    }
}
