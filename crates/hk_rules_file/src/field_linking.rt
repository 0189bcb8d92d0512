// Fields, with numbers in place of the contexts and the patterns that they name.
ghost use Rattle.std.specs.Prelude.{◌≡◌, ◌++◌, [], IfOk};
ghost use Rattle.hk_rules_file.specs.Linking as spec;

use crate::numbering::{Names, Pool};
use hk_base::NoMemory;
use hk_chain::Field;
use hk_steps::{DraftField, Drafts};
use std::alloc::Global;

/// The fields of a context, and the patterns then, where each list's context is one of these.
pub(crate) fn link_fields(
    alloc: Global,
    names: &Names,
    pool: Pool,
    drafts: Drafts<DraftField>,
) -> Result<Option<(Drafts<Field>, Pool)>, NoMemory>
    ensures { IfOk result (λ o. o ≡ spec.link_fields names.now drafts pool []) }
{
    let mut pool = pool;
    let mut fields = Drafts::new(alloc);
    for draft in drafts.into_vec() {
        match link_field(alloc, names, pool, fields, draft)? {
            Some((more, next)) => {
                fields = more;
                pool = next;
            }
            None => return Ok(None),
        }
    }
    Ok(Some((fields, pool)))
}

fn link_field(
    alloc: Global,
    names: &Names,
    pool: Pool,
    done: Drafts<Field>,
    draft: DraftField,
) -> Result<Option<(Drafts<Field>, Pool)>, NoMemory>
    ensures { IfOk result (λ o. o ≡ spec.link_field names.now pool done draft) }
{
    match draft {
        DraftField::Default => Ok(Some((with_defaults(done)?, pool))),
        DraftField::Whole(field) => {
            let mut done = done;
            done.push(field)?;
            Ok(Some((done, pool)))
        }
        DraftField::Several {
            key,
            of,
            snapshot,
            order,
            limit,
            context,
        } => {
            let Some(context) = names.find(&context) else {
                return Ok(None);
            };
            let (of, pool) = pool.number(alloc, of)?;
            let mut done = done;
            done.push(Field::List {
                key,
                of,
                snapshot,
                order,
                limit,
                context,
            })?;
            Ok(Some((done, pool)))
        }
    }
}

/// The fields with those of the context that is built in after them.
pub(crate) fn with_defaults(done: Drafts<Field>) -> Result<Drafts<Field>, NoMemory>
    ensures { IfOk result (λ r. r ≡ done ++ spec.default_fields) }
{
    let mut done = done;
    done.push(Field::Body)?;
    done.push(Field::Metadata)?;
    done.push(Field::Url)?;
    done.push(Field::Path)?;
    done.push(Field::Title)?;
    Ok(done)
}
