// Reads a template in one pass over its text.
ghost use Rattle.std.specs.Prelude.{◌≡◌, OnOk, [], false};
ghost use Rattle.hk_template.specs.Growing as spec;
ghost use Rattle.hk_template.specs.Parsing.{Parses};
ghost use Rattle.hk_template.specs.Stepping.{Steps, Grows};
ghost use Rattle.hk_template.specs.ParserViews.{frame_view, state_view, token_view, waiting_view};

use crate::cut::token_at;
use crate::fault::TemplateFault;
use crate::frame::{Frame, Parser};
use crate::node::Node;
use crate::template::Template;
use crate::token::Token;
use crate::trim::{trim_end_if, trim_start_if};
use hk_base::{NoMemory, Refusal, Text};
use std::alloc::Global;

/// A parser with the text that waits for what follows it, and whether a right dash stands before the next token.
#[derive(Drop)]
pub struct Reader<'a> {
    pub parser: Parser,
    pub run: &'a [u8],
    pub after: bool,
}

/// The one tree of the text. The faults, each at the first place from the left: `BadForm` where a dollar sign begins
/// neither `$$` nor a tag, or a tag that doesn't fit the innermost open form; `TooDeep` where a 65th form opens;
/// `Unclosed` where a form is open at the end of the text. `NoMemory` only for want of memory. Linear.
#[tactic(auto, using(crate::proofs::Grammar::parsed))]
pub fn parse(alloc: Global, text: &[u8]) -> Result<Template, Refusal<TemplateFault>>
    ensures grammar { Parses text.now result }
    ensures value { Grows (spec.read_tree text.now) result }
{
    grow(alloc, text)
}

fn grow(alloc: Global, text: &[u8]) -> Result<Template, Refusal<TemplateFault>>
    ensures { Grows (spec.read_tree text.now) result }
{
    let mut reader = Reader {
        parser: Parser::new(alloc),
        run: &text[..0],
        after: false,
    };
    let mut rest = text;
    while !rest.is_empty() {
        let place = (text.len() - rest.len()) as u64;
        match token_at(rest) {
            Some(cut) => {
                reader.take(alloc, cut.token, place)?;
                rest = cut.rest;
            }
            None => return Err(Refusal::Fault(TemplateFault::BadForm { place })),
        }
    }
    reader.finish(alloc)
}

impl<'a> Reader<'a> {
    fn take(
        &mut self,
        alloc: Global,
        token: Token<'a>,
        place: u64,
    ) -> Result<(), Refusal<TemplateFault>>
        ensures { Steps (spec.token_step place (token_view token.entry) (waiting_view self.old)) (waiting_view self.new) result }
    {
        match token {
            Token::Text(bytes) => {
                self.flush(alloc, false)?;
                self.run = trim_start_if(self.after, bytes);
                self.after = false;
            }
            Token::Dollar => {
                self.flush(alloc, false)?;
                self.parser.push(Node::Dollar)?;
                self.after = false;
            }
            Token::Tag(left, word, right) => {
                self.flush(alloc, left)?;
                self.parser.take_word(alloc, word, place)?;
                self.after = right;
            }
        }
        Ok(())
    }

    /// Makes a node of the text that waits, if it has bytes.
    fn flush(&mut self, alloc: Global, left: bool) -> Result<(), NoMemory>
        ensures { OnOk result (waiting_view self.new ≡ spec.waits [] self.old.after (spec.flushed left (waiting_view self.old))) }
    {
        let run = trim_end_if(left, self.run);
        self.run = &run[..0];
        if run.is_empty() {
            return Ok(());
        }
        let bytes = Text::from_slice(alloc, run)?;
        self.parser.push(Node::Text(bytes))
    }

    fn finish(self, alloc: Global) -> Result<Template, Refusal<TemplateFault>>
        ensures { Grows (spec.finished (spec.flushed false (waiting_view self.entry))) result }
    {
        let mut reader = self;
        reader.flush(alloc, false)?;
        let Reader {
            parser,
            run: _,
            after: _,
        } = reader;
        parser.finish()
    }
}

impl Parser {
    fn finish(self) -> Result<Template, Refusal<TemplateFault>>
        ensures { Grows (spec.finished (state_view self)) result }
    {
        let Parser { nodes, mut forms } = self;
        match forms.pop() {
            None => Ok(Template { nodes }),
            Some(frame) => Err(Refusal::Fault(TemplateFault::Unclosed {
                place: place_of_form(&frame),
            })),
        }
    }
}

fn place_of_form(frame: &Frame) -> u64
    ensures { result ≡ (spec.head_of (frame_view frame.now)).place }
{
    match frame {
        Frame::If(head) => head.place,
        Frame::Else(head, _) => head.place,
        Frame::For(head) => head.place,
        Frame::Sep(head, _) => head.place,
    }
}
