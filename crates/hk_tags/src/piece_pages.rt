// The pages of a table for numbered pages.
ghost use Rattle.std.specs.Prelude.{◌≡◌, ◌≤◌, [], ◌∷◌, ◌++◌, take, drop, IfOk, OnOk};
ghost use Rattle.std.specs.Fmt.{decimal as digits};
ghost use Rattle.hk_tags.specs.Pages as spec;

use crate::table_page::TablePage;
use hk_base::{NoMemory, Text};
use hk_chain::ItemNo;
use hk_pattern::Items;
use hk_rules::PageRule;
use std::alloc::Global;

/// The pages of the table for these items, which are its members in its order: each page has so many, the last one may have
/// fewer, and without items there is one page without any. Linear.
pub(crate) fn pages_of_items(
    alloc: Global,
    table: &PageRule,
    items: &[ItemNo],
) -> Result<Vec<TablePage>, NoMemory>
    requires { 1 ≤ table.now.per }
    ensures { IfOk result (λ v. v.items ≡ spec.pages_of_items table.now items.now) }
{
    let per = table.per as usize;
    let count = count_of_pieces(per, items.len());
    let mut pages = Vec::new(alloc);
    let mut rest = items;
    for place in 0..count {
        let members = Items::from_slice(alloc, front(rest, per))?;
        pages.push(piece_page(alloc, table, count, place + 1, members)?)?;
        rest = behind(rest, per);
    }
    Ok(pages)
}

/// How many pages so many items have.
fn count_of_pieces(per: usize, count: usize) -> usize
    requires { 1 ≤ per }
    ensures { result ≡ spec.count_of_pieces per count }
{
    if count == 0 {
        return 1;
    }
    (count - 1) / per + 1
}

/// The first items, so many at most.
fn front(items: &[ItemNo], per: usize) -> &[ItemNo]
    ensures { result.now ≡ take per items.now }
{
    if items.len() <= per {
        return items;
    }
    &items[..per]
}

/// The items after the first ones.
fn behind(items: &[ItemNo], per: usize) -> &[ItemNo]
    ensures { result.now ≡ drop per items.now }
{
    if items.len() <= per {
        return &[];
    }
    &items[per..]
}

fn piece_page(
    alloc: Global,
    table: &PageRule,
    count: usize,
    number: usize,
    members: Items<ItemNo>,
) -> Result<TablePage, NoMemory>
    requires { 1 ≤ number }
    ensures { IfOk result (λ p. p ≡ spec.piece_page table.now count number members) }
{
    let path = piece_path(alloc, table, number)?;
    let mut own = numbers(alloc, count, number)?;
    push_newer(alloc, &mut own, table, number)?;
    push_older(alloc, &mut own, table, count, number)?;
    Ok(TablePage { path, members, own })
}

fn numbers(alloc: Global, count: usize, number: usize) -> Result<Vec<(Text, Text)>, NoMemory>
    ensures { IfOk result (λ v. v.items ≡ spec.numbers count number) }
{
    let mut own = Vec::new(alloc);
    push_own(alloc, &mut own, b"page", decimal(alloc, number)?)?;
    push_own(alloc, &mut own, b"pages", decimal(alloc, count)?)?;
    Ok(own)
}

fn push_own(
    alloc: Global,
    own: &mut Vec<(Text, Text)>,
    key: &[u8],
    text: Text,
) -> Result<(), NoMemory>
    ensures { OnOk result (own.new.items ≡ own.old.items ++ (key.now, text) ∷ []) }
{
    let key = Text::from_slice(alloc, key)?;
    own.push((key, text))?;
    Ok(())
}

fn push_newer(
    alloc: Global,
    own: &mut Vec<(Text, Text)>,
    table: &PageRule,
    number: usize,
) -> Result<(), NoMemory>
    requires { 1 ≤ number }
    ensures { OnOk result (own.new.items ≡ own.old.items ++ spec.newer table.now number) }
{
    if number == 1 {
        return Ok(());
    }
    let path = piece_path(alloc, table, number - 1)?;
    push_own(alloc, own, b"newerPath", path)?;
    Ok(())
}

fn push_older(
    alloc: Global,
    own: &mut Vec<(Text, Text)>,
    table: &PageRule,
    count: usize,
    number: usize,
) -> Result<(), NoMemory>
    ensures { OnOk result (own.new.items ≡ own.old.items ++ spec.older table.now count number) }
{
    if number < count {
        let path = piece_path(alloc, table, number + 1)?;
        push_own(alloc, own, b"olderPath", path)?;
        return Ok(());
    }
    Ok(())
}

/// The path of the page of a number, from 1.
fn piece_path(alloc: Global, table: &PageRule, number: usize) -> Result<Text, NoMemory>
    ensures { IfOk result (λ t. t ≡ spec.piece_path table.now number) }
{
    if number == 1 {
        return Text::from_slice(alloc, table.first.as_slice());
    }
    let name = decimal(alloc, number)?;
    let mut path = Vec::from_slice(alloc, table.prefix.as_slice())?;
    path.extend_from_slice(name.as_slice())?;
    path.extend_from_slice(b".html")?;
    Ok(Text::from_vec(path))
}

fn decimal(alloc: Global, number: usize) -> Result<Text, NoMemory>
    ensures { IfOk result (λ t. t ≡ digits number) }
{
    let text = format!(in alloc; "{number}")?;
    Ok(Text::from_vec(text.into_bytes()))
}
