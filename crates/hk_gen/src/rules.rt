// The rules of a generated site.
ghost use Rattle.std.specs.Prelude.{◌≡◌, ◌++◌, IfOk, OnOk};
ghost use Rattle.hk_gen.specs.Rules as spec;

use hk_base::{NoMemory, Text};
use std::alloc::Global;

/// The text of `site.toml`.
pub fn rules_text(alloc: Global) -> Result<Text, NoMemory>
    ensures { IfOk result (λ t. t ≡ spec.rules_text) }
{
    let mut out = Vec::new(alloc);
    write_rules(&mut out)?;
    write_contexts(&mut out)?;
    Ok(Text::from_vec(out))
}

fn write_rules(out: &mut Vec<u8>) -> Result<(), NoMemory>
    ensures { OnOk result (out.new.items ≡ out.old.items ++ spec.rules) }
{
    append(out, posts_rule())?;
    append(out, archive_rule())?;
    append(out, index_rule())?;
    append(out, templates_rule())
}

fn write_contexts(out: &mut Vec<u8>) -> Result<(), NoMemory>
    ensures { OnOk result (out.new.items ≡ out.old.items ++ spec.contexts) }
{
    append(out, post_context())?;
    append(out, archive_context())?;
    append(out, index_context())?;
    append(out, short_context())
}

fn append(out: &mut Vec<u8>, bytes: &[u8]) -> Result<(), NoMemory>
    ensures { OnOk result (out.new.items ≡ out.old.items ++ bytes.now) }
{
    out.extend_from_slice(bytes)?;
    Ok(())
}

#[tactic(auto, unfolding(crate::specs::Rules::posts_rule))]
fn posts_rule() -> &'static [u8]
    ensures { result.now ≡ spec.posts_rule }
{
    b"[[rule]]\nmatch = \"posts/*\"\nroute = { extension = \"html\" }\ncompile = [\"body\", { save = \"content\" }, { apply = \"templates/post.html\", context = \"post\" }, \"relativize\"]\n"
}

#[tactic(auto, unfolding(crate::specs::Rules::archive_rule))]
fn archive_rule() -> &'static [u8]
    ensures { result.now ≡ spec.archive_rule }
{
    b"[[rule]]\ncreate = [\"archive.html\"]\nroute = \"id\"\ncompile = [{ make = \"\" }, { apply = \"templates/list.html\", context = \"archive\" }, \"relativize\"]\n"
}

#[tactic(auto, unfolding(crate::specs::Rules::index_rule))]
fn index_rule() -> &'static [u8]
    ensures { result.now ≡ spec.index_rule }
{
    b"[[rule]]\ncreate = [\"index.html\"]\nroute = \"id\"\ncompile = [{ make = \"\" }, { apply = \"templates/list.html\", context = \"index\" }, \"relativize\"]\n"
}

#[tactic(auto, unfolding(crate::specs::Rules::templates_rule))]
fn templates_rule() -> &'static [u8]
    ensures { result.now ≡ spec.templates_rule }
{
    b"[[rule]]\nmatch = \"templates/*\"\ncompile = [\"template\"]\n"
}

#[tactic(auto, unfolding(crate::specs::Rules::post_context))]
fn post_context() -> &'static [u8]
    ensures { result.now ≡ spec.post_context }
{
    b"[context.post]\nfields = [{ date = [\"date\", \"%Y-%m-%d\"] }, \"default\"]\n"
}

#[tactic(auto, unfolding(crate::specs::Rules::archive_context))]
fn archive_context() -> &'static [u8]
    ensures { result.now ≡ spec.archive_context }
{
    b"[context.archive]\nfields = [{ list = \"posts\", of = \"posts/*\", order = \"recent\", context = \"post\" }, \"default\"]\n"
}

#[tactic(auto, unfolding(crate::specs::Rules::index_context))]
fn index_context() -> &'static [u8]
    ensures { result.now ≡ spec.index_context }
{
    b"[context.index]\nfields = [{ list = \"posts\", of = \"posts/*\", order = \"recent\", limit = 10, snapshot = \"content\", context = \"short\" }, \"default\"]\n"
}

#[tactic(auto, unfolding(crate::specs::Rules::short_context))]
fn short_context() -> &'static [u8]
    ensures { result.now ≡ spec.short_context }
{
    b"[context.short]\nfields = [{ teaser = [\"short\", \"content\"] }, \"default\"]\n"
}
