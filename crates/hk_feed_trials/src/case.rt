// A rules file with its folder, pages and feeds, part by part.
use crate::answers::answer;
use crate::bytes::text_of;
use crate::rules::feed_of;
use hk_base::Text;
use hk_rules::FeedRule;
use std::alloc::Global;
use std::mem;
use std::test::Fail;

/// A page of an item, by the name under which the item saves it.
#[derive(Drop)]
pub struct Saved<'a> {
    pub kind: &'a str,
    pub name: &'a str,
    pub path: &'a str,
    pub body: Text,
}

/// The last rules file, and the files, pages and feeds since the last answer.
#[derive(Drop)]
pub struct Case<'a> {
    rules: &'a str,
    files: Vec<(Text, Text)>,
    pages: Vec<Saved<'a>>,
    feeds: Vec<FeedRule>,
}

impl<'a> Case<'a> {
    pub fn new(alloc: Global) -> Case<'a> {
        Case {
            rules: "",
            files: Vec::new(alloc),
            pages: Vec::new(alloc),
            feeds: Vec::new(alloc),
        }
    }

    /// What a part comes to. A part is a line and a text: `rules` and a rules file; `file` with a path and what it holds;
    /// `page` with a kind, a name and a path, and its body; `feed` and its lines; or `feeds` and nothing.
    pub fn answer(&mut self, alloc: Global, part: &'a str) -> Result<String, Fail> {
        let (head, text) = part.split_once('\n').unwrap_or((part, ""));
        if let Some(path) = head.strip_prefix("file ") {
            self.add_file(alloc, path, text)?;
        } else if let Some(words) = head.strip_prefix("page ") {
            self.add_page(alloc, words, text)?;
        } else if head == "feed" {
            self.feeds.push(feed_of(alloc, text)?)?;
        } else if head == "rules" {
            self.rules = text;
        } else if head == "feeds" {
            return self.feeds(alloc);
        }
        Ok(String::new(alloc))
    }

    fn add_file(&mut self, alloc: Global, path: &str, text: &str) -> Result<(), Fail> {
        let path = Text::from_slice(alloc, path.as_bytes())?;
        let text = text_of(alloc, text)?;
        self.files.push((path, text))?;
        Ok(())
    }

    fn add_page(&mut self, alloc: Global, words: &'a str, text: &str) -> Result<(), Fail> {
        let (kind, rest) = words.split_once(' ').unwrap_or((words, ""));
        let (name, path) = rest.split_once(' ').unwrap_or((rest, ""));
        let body = text_of(alloc, text)?;
        self.pages.push(Saved {
            kind,
            name,
            path,
            body,
        })?;
        Ok(())
    }

    fn feeds(&mut self, alloc: Global) -> Result<String, Fail> {
        let files = mem::replace(&mut self.files, Vec::new(alloc));
        let pages = mem::replace(&mut self.pages, Vec::new(alloc));
        let feeds = mem::replace(&mut self.feeds, Vec::new(alloc));
        answer(alloc, self.rules, files, pages, &feeds)
    }
}
