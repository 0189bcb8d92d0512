// Going over an HTML text from the left, and keeping the links in it.
ghost use Rattle.std.specs.Prelude.{◌≤◌, length};

use crate::attribute::{Attribute, Sizes, is_link, read_attribute};
use crate::kind::{first, is_white, tag_name_len};
use crate::piece::{comment_len, raw_len};
use crate::place::{front_of, rest_of};
use hk_base::NoMemory;
use std::alloc::Global;

/// The value of an attribute that holds a URL, and what stands before it since the link before.
#[derive(Clone, Copy, Drop)]
pub struct Link<'a> {
    pub before: &'a [u8],
    pub value: &'a [u8],
}

/// What was read of a text: its links, and where the bytes after the last of them begin and end.
#[derive(Drop)]
pub struct Scan<'a> {
    pub body: &'a [u8],
    pub links: Vec<Link<'a>>,
    pub from: usize,
    pub at: usize,
    ghost ordered: { from ≤ at },
    ghost inside: { at ≤ length body.now },
}

impl<'a> Scan<'a> {
    ghost use Rattle.std.specs.Prelude.{◌≡◌, ◌+◌, ◌<◌, [], ◌∷◌, ◌++◌, take, drop, IfOk, OnOk};
    ghost use Rattle.hk_base.specs.Bytes.{Bytes};
    ghost use Rattle.hk_html.specs.Part.{Part, part_text, with_root};
    ghost use Rattle.hk_html.specs.Read.{sizes_of};
    ghost use Rattle.hk_html.specs.Scan.{Reads, ReadsPart, ReadsPiece, ReadsTag, ahead, part_ahead, piece_ahead, tag_ahead};

    /// Nothing read yet.
    pub fn new(alloc: Global, body: &'a [u8]) -> Scan<'a>
        ensures body { result.body.now ≡ body.now }
        ensures links { result.links.items ≡ [] }
        ensures from { result.from ≡ 0 }
        ensures at { result.at ≡ 0 }
    {
        Scan {
            body,
            links: Vec::new(alloc),
            from: 0,
            at: 0,
        }
    }

    /// Reads so many bytes in which no link stands.
    fn skip(&mut self, count: usize)
        requires { self.old.at + count ≤ length self.old.body.now }
        ensures { Reads self.old self.new count (λ root. take count (ahead self.old)) [] }
    {
        self.at += count;
    }

    /// Keeps the value that stands after `before` bytes as a link.
    fn link(&mut self, before: usize, value: usize) -> Result<(), NoMemory>
        requires { self.old.at + before + value ≤ length self.old.body.now }
        ensures { OnOk result (Reads self.old self.new (before + value)
            (λ root. take before (ahead self.old)
            ++ with_root root (take value (drop before (ahead self.old))))
            (take value (drop before (ahead self.old)) ∷ [])) }
    {
        let body = self.body;
        let start = self.at + before;
        let end = start + value;
        self.links.push(Link {
            before: &body[self.from..start],
            value: &body[start..end],
        })?;
        self.from = end;
        self.at = end;
        Ok(())
    }

    /// Reads an attribute with a value, which comes next.
    fn valued(&mut self, sizes: Sizes) -> Result<(), NoMemory>
        requires { self.old.at + sizes.name + sizes.between + sizes.value + sizes.close
            ≤ length self.old.body.now }
        ensures { OnOk result ((part : Part) (rest : Bytes) → ahead self.old ≡ part_text part ++ rest
            → Attribute.Valued sizes ≡ sizes_of part → ReadsPart self.old self.new part) }
    {
        let rest = rest_of(self.body, self.at);
        if is_link(front_of(rest, sizes.name)) {
            self.link(sizes.name + sizes.between, sizes.value)?;
            self.skip(sizes.close);
        } else {
            self.skip(sizes.name + sizes.between + sizes.value + sizes.close);
        }
        Ok(())
    }

    /// Reads the part of a tag that comes next.
    fn part(&mut self) -> Result<(), NoMemory>
        requires { self.old.at < length self.old.body.now }
        ensures { OnOk result (ReadsPart self.old self.new (part_ahead self.old)) }
    {
        let rest = rest_of(self.body, self.at);
        let byte = first(rest);
        if is_white(byte) || byte == b'/' {
            self.skip(1);
            return Ok(());
        }
        match read_attribute(rest) {
            Attribute::Bare(count) => self.skip(count),
            Attribute::Valued(sizes) => self.valued(sizes)?,
        }
        Ok(())
    }

    /// Reads the parts of a tag up to the `>` that ends it; `false` where the text ends first.
    fn parts(&mut self) -> Result<bool, NoMemory>
        ensures { IfOk result (λ finished. ReadsTag self.old self.new finished) }
    {
        while self.at < self.body.len() {
            if self.body[self.at] == b'>' {
                return Ok(true);
            }
            self.part()?;
        }
        Ok(false)
    }

    /// Lets go of the links after the first `kept`, and of the rest of the text.
    fn give_up(&mut self, kept: usize, from: usize)
        requires { from ≤ length self.old.body.now }
        ensures body { self.new.body.now ≡ self.old.body.now }
        ensures links { self.new.links.items ≡ take kept self.old.links.items }
        ensures from { self.new.from ≡ from }
        ensures at { self.new.at ≡ length self.old.body.now }
    {
        self.links.truncate(kept);
        self.at = self.body.len();
        self.from = from;
    }

    /// Reads the tag that comes next and the raw text after it, or all where the tag has no end.
    fn tag(&mut self) -> Result<(), NoMemory>
        requires { self.old.at < length self.old.body.now }
        ensures { OnOk result (ReadsPiece self.old self.new (tag_ahead self.old)) }
    {
        let kept = self.links.len();
        let from = self.from;
        let body = self.body;
        let rest = rest_of(body, self.at + 1);
        let name = front_of(rest, tag_name_len(rest));
        self.skip(1 + name.len());
        if self.parts()? {
            self.skip(1);
            let raw = raw_len(rest_of(body, self.at), name);
            self.skip(raw);
        } else {
            self.give_up(kept, from);
        }
        Ok(())
    }

    /// Reads the piece that comes next.
    pub fn piece(&mut self) -> Result<(), NoMemory>
        requires { self.old.at < length self.old.body.now }
        ensures { OnOk result (ReadsPiece self.old self.new (piece_ahead self.old)) }
    {
        let rest = rest_of(self.body, self.at);
        if rest.starts_with(b"<!--") {
            self.skip(comment_len(rest));
            return Ok(());
        }
        if first(rest) == b'<' && first(rest_of(rest, 1)).is_ascii_alphabetic() {
            self.tag()?;
            return Ok(());
        }
        self.skip(1);
        Ok(())
    }
}
