// The source folder of a generated site.
ghost use Rattle.std.specs.Prelude.{◌≡◌, IfOk};
ghost use Rattle.hk_gen.specs.Site as spec;

use crate::posts::posts;
use crate::rules::rules_text;
use hk_base::{NoMemory, Text};
use std::alloc::Global;

/// The files of the source folder of a generated site, each with its path, in the order of the paths: `count` posts in
/// `posts/`, the rules in `site.toml`, and two templates. Each post is made of three numbers of a linear congruential
/// generator of 31 bits that starts from `number`; one text of them stands in front of the mark of a teaser, the other
/// behind it, and its date lies in one of 25 years from 2000 on. Built, the site has a page for each post, an archive and
/// an index.
///
/// `NoMemory` only for want of memory. Linear in the bytes.
pub fn generated_site(alloc: Global, number: u32, count: u32) -> Result<Vec<(Text, Text)>, NoMemory>
    ensures { IfOk result (λ v. v.items ≡ spec.site number count) }
{
    let mut files = posts(alloc, number, count)?;
    let rules = rules_text(alloc)?;
    files.push((Text::from_slice(alloc, b"site.toml")?, rules))?;
    files.push(file(alloc, b"templates/list.html", list_template())?)?;
    files.push(file(alloc, b"templates/post.html", post_template())?)?;
    Ok(files)
}

fn file(alloc: Global, path: &[u8], bytes: &[u8]) -> Result<(Text, Text), NoMemory>
    ensures { IfOk result (λ f. f ≡ (path.now, bytes.now)) }
{
    let path = Text::from_slice(alloc, path)?;
    let text = Text::from_slice(alloc, bytes)?;
    Ok((path, text))
}

fn post_template() -> &'static [u8]
    ensures { result.now ≡ spec.post_template }
{
    b"<h1>$title$</h1><i>$date$</i>\n$body$"
}

fn list_template() -> &'static [u8]
    ensures { result.now ≡ spec.list_template }
{
    b"$for(posts)$<a href=\"$url$\">$title$</a>$if(short)$ $short$$endif$\n$endfor$"
}
