// The contexts of a file, with the one that is built in at its place.
ghost use Rattle.std.specs.Prelude.{◌≡◌, [], IfOk, Ok};
ghost use Rattle.std.specs.Ordering.{nat_cmp, is_lt};
ghost use Rattle.std.specs.Cmp.Lexicographic.{slice_cmp};
ghost use Rattle.std.specs.List.{fold};
ghost use Rattle.toml.specs.View.{view, table_view};
ghost use Rattle.hk_base.specs.Answers.{Answers};
ghost use Rattle.hk_rules_file.specs.ContextForm as spec;
ghost use Rattle.hk_rules_file.specs.FileEntries.{context_at, contexts_at};
ghost use Rattle.hk_rules_file.specs.Numbering.{with_name};

use crate::fault::RulesFault;
use crate::field_linking::{link_fields, with_defaults};
use crate::numbering::{Names, Pool};
use hk_base::{NoMemory, Refusal, Text};
use hk_chain::{Context, Field};
use hk_forms::is_context_name;
use hk_steps::{DraftField, Drafts, context_fields, default_name};
use std::alloc::Global;
use std::cmp::Ordering;
use toml::{Table, Value};

/// How many contexts a file may write.
const MOST_CONTEXTS: usize = 256;

/// A context of a file: the one that is built in, or one that is written under a name, where so many more may stand.
#[derive(Clone, Copy, Drop)]
pub(crate) enum Entry<'a> {
    BuiltIn,
    Written {
        name: &'a str,
        room: usize,
        value: &'a Value,
    },
}

/// All contexts in the order of their names. Linear in the table.
#[tactic(auto, unfolding(crate::specs::ContextForm::listed))]
pub(crate) fn listed(alloc: Global, table: &Table) -> Result<Vec<Entry<'_>>, NoMemory>
    ensures { IfOk result (λ entries. contexts_at entries.items ≡ spec.listed (table_view table.now)) }
{
    let mut entries = Vec::new(alloc);
    let mut waits = true;
    let mut room = MOST_CONTEXTS;
    for (name, value) in table.iter() {
        let name = name.as_str();
        if waits && !is_early(name.as_bytes()) {
            entries.push(Entry::BuiltIn)?;
            waits = false;
        }
        entries.push(Entry::Written { name, room, value })?;
        room = room.saturating_sub(1);
    }
    if waits {
        entries.push(Entry::BuiltIn)?;
    }
    Ok(entries)
}

#[tactic(auto, unfolding(crate::specs::ContextForm::is_early))]
fn is_early(name: &[u8]) -> bool
    ensures { result ≡ spec.is_early name.now }
{
    is_before(name, b"default")
}

fn is_before(name: &[u8], other: &[u8]) -> bool
    ensures { result ≡ is_lt (slice_cmp nat_cmp name.now other.now) }
{
    match name.cmp(other) {
        Ordering::Less => true,
        _ => false,
    }
}

/// The names of the contexts in order, each once. `n log n` comparisons of names.
pub(crate) fn names_of(alloc: Global, entries: &[Entry<'_>]) -> Result<Names, NoMemory>
    ensures { IfOk result (λ names. names ≡ fold with_name [] (spec.names_in (contexts_at entries.now))) }
{
    let mut names = Names::new(alloc);
    for entry in entries {
        names = names.with(alloc, name_in(entry))?;
    }
    Ok(names)
}

fn name_in<'a>(entry: &Entry<'a>) -> &'a [u8]
    ensures { result.now ≡ spec.name_in (context_at entry.now) }
{
    match *entry {
        Entry::BuiltIn => b"default",
        Entry::Written { name, .. } => name.as_bytes(),
    }
}

/// The contexts as they are read, and the patterns that they use. Linear in the table, but for the look-ups of names and
/// patterns.
pub(crate) fn contexts_from(
    alloc: Global,
    names: &Names,
    entries: &[Entry<'_>],
) -> Result<(Drafts<Context>, Pool), Refusal<RulesFault>>
    ensures { Answers (spec.contexts_from names.now (contexts_at entries.now) [] []) result }
{
    let mut pool = Pool::new(alloc);
    let mut contexts = Drafts::new(alloc);
    for entry in entries {
        let (context, next) = context_in(alloc, names, pool, entry)?;
        contexts.push(context)?;
        pool = next;
    }
    Ok((contexts, pool))
}

fn context_in(
    alloc: Global,
    names: &Names,
    pool: Pool,
    entry: &Entry<'_>,
) -> Result<(Context, Pool), Refusal<RulesFault>>
    ensures { Answers (spec.context_in names.now pool (context_at entry.now)) result }
{
    match *entry {
        Entry::BuiltIn => Ok((default_context(alloc)?, pool)),
        Entry::Written { name, room, value } => {
            written_context(alloc, names, pool, name, room, value)
        }
    }
}

fn default_context(alloc: Global) -> Result<Context, NoMemory>
    ensures { IfOk result (λ c. c ≡ spec.default_context) }
{
    let name = default_name(alloc)?;
    let fields = with_defaults(Drafts::new(alloc))?.into_vec();
    Ok(Context { name, fields })
}

fn written_context(
    alloc: Global,
    names: &Names,
    pool: Pool,
    name: &str,
    room: usize,
    value: &Value,
) -> Result<(Context, Pool), Refusal<RulesFault>>
    ensures { Answers (spec.context_in names.now pool (spec.written name.now room (view value.now))) result }
{
    match context_of(alloc, names, room, pool, name, value)? {
        Some(read) => Ok(read),
        None => {
            let name = Text::from_slice(alloc, name.as_bytes())?;
            Err(Refusal::Fault(RulesFault::BadContext { name }))
        }
    }
}

fn context_of(
    alloc: Global,
    names: &Names,
    room: usize,
    pool: Pool,
    name: &str,
    value: &Value,
) -> Result<Option<(Context, Pool)>, NoMemory>
    ensures { IfOk result (λ o. o ≡ spec.context_of names.now room pool name.now (view value.now)) }
{
    if !may_define(room, name.as_bytes()) {
        return Ok(None);
    }
    linked(alloc, names, pool, name, context_fields(alloc, value)?)
}

fn may_define(room: usize, name: &[u8]) -> bool
    ensures { result ≡ spec.may_define room name.now }
{
    (1 <= room && is_context_name(name)) && !(name == b"default".as_slice())
}

fn linked(
    alloc: Global,
    names: &Names,
    pool: Pool,
    name: &str,
    drafts: Option<Drafts<DraftField>>,
) -> Result<Option<(Context, Pool)>, NoMemory>
    ensures { IfOk result (λ o. o ≡ spec.linked names.now pool name.now drafts) }
{
    match drafts {
        Some(drafts) => named(alloc, name, link_fields(alloc, names, pool, drafts)?),
        None => Ok(None),
    }
}

fn named(
    alloc: Global,
    name: &str,
    linked: Option<(Drafts<Field>, Pool)>,
) -> Result<Option<(Context, Pool)>, NoMemory>
    ensures { IfOk result (λ o. o ≡ spec.named name.now linked) }
{
    match linked {
        Some((fields, pool)) => {
            let name = Text::from_slice(alloc, name.as_bytes())?;
            let fields = fields.into_vec();
            Ok(Some((Context { name, fields }, pool)))
        }
        None => Ok(None),
    }
}
