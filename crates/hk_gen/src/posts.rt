// The posts of a generated site.
ghost use Rattle.std.specs.Prelude.{◌≡◌, IfOk, string_bytes};
ghost use Rattle.hk_gen.specs.Posts as spec;

use crate::random::{Draws, Random};
use hk_base::{NoMemory, Text};
use std::alloc::Global;

/// So many posts, each with its path, in the order of the paths.
pub fn posts(alloc: Global, number: u32, count: u32) -> Result<Vec<(Text, Text)>, NoMemory>
    ensures { IfOk result (λ v. v.items ≡ spec.posts number count) }
{
    let mut random = Random::new(number);
    let mut files = Vec::new(alloc);
    for place in 0..count {
        let draws = random.draws();
        files.push(post(alloc, place + 1, draws)?)?;
    }
    Ok(files)
}

/// The path of a post and what its file holds.
fn post(alloc: Global, number: u32, draws: Draws) -> Result<(Text, Text), NoMemory>
    ensures { IfOk result (λ f. f ≡ (spec.post_path number, spec.post_text number draws)) }
{
    let path = post_path(alloc, number)?;
    let text = post_text(alloc, number, draws)?;
    Ok((path, text))
}

fn post_path(alloc: Global, number: u32) -> Result<Text, NoMemory>
    ensures { IfOk result (λ t. t ≡ spec.post_path number) }
{
    let path = format!(in alloc; "posts/{number:05}.md")?;
    Ok(Text::from_vec(path.into_bytes()))
}

fn post_text(alloc: Global, number: u32, draws: Draws) -> Result<Text, NoMemory>
    ensures { IfOk result (λ t. t ≡ spec.post_text number draws) }
{
    let date = date(alloc, draws)?;
    let Draws { first, second, .. } = draws;
    let text = format!(in alloc;
        "---\ntitle: Post {number}\ndate: {date}\n---\n<p>Text {first}.</p>\n<!--more-->\n<p><a href=\"/archive.html\">Rest {second}</a></p>\n"
    )?;
    Ok(Text::from_vec(text.into_bytes()))
}

fn date(alloc: Global, draws: Draws) -> Result<String, NoMemory>
    ensures { IfOk result (λ s. string_bytes s ≡ spec.date draws) }
{
    let year = 2_000 + draws.first % 25;
    let month = two_digits(alloc, 1 + draws.second % 12)?;
    let day = two_digits(alloc, 1 + draws.third % 28)?;
    let date = format!(in alloc; "{year}-{month}-{day}")?;
    Ok(date)
}

fn two_digits(alloc: Global, number: u32) -> Result<String, NoMemory>
    ensures { IfOk result (λ s. string_bytes s ≡ spec.with_zeros 2 number) }
{
    let digits = format!(in alloc; "{number:02}")?;
    Ok(digits)
}
