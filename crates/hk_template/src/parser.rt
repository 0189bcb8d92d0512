// Builds a tree of the words of tags, with a stack of the forms that are open.
ghost use Rattle.std.specs.Prelude.{◌≡◌, ◌∷◌, [], OnOk, Ok, MatchOption};
ghost use Rattle.hk_template.specs.Tree.{key_node, partial_node, if_else_node, for_sep_node};
ghost use Rattle.hk_template.specs.View.{node_view, nodes_view};
ghost use Rattle.hk_template.specs.Growing as spec;
ghost use Rattle.hk_template.specs.ParserViews.{forms_view, frame_view, state_view, word_view};
ghost use Rattle.hk_template.specs.Stepping.{Begins, Steps};

use crate::fault::TemplateFault;
use crate::frame::{Frame, Head, Parser, push_node};
use crate::node::Node;
use crate::token::Word;
use hk_base::{NoMemory, Refusal, Text};
use std::alloc::Global;
use std::mem;

const MOST_FORMS: usize = 64;

impl Parser {
    /// No nodes and no open forms. Takes no memory.
    pub fn new(alloc: Global) -> Parser
        ensures { state_view result ≡ spec.start }
    {
        Parser {
            nodes: Vec::new(alloc),
            forms: Vec::new(alloc),
        }
    }

    /// Adds a node to the innermost list.
    pub fn push(&mut self, child: Node) -> Result<(), NoMemory>
        ensures { OnOk result (state_view self.new ≡ spec.with_node (node_view child) (state_view self.old)) }
    {
        push_node(&mut self.nodes, child)?;
        Ok(())
    }

    /// Takes the word of the tag at `place`.
    pub fn take_word(
        &mut self,
        alloc: Global,
        word: Word<'_>,
        place: u64,
    ) -> Result<(), Refusal<TemplateFault>>
        ensures { Steps (spec.word_step place (word_view word.entry) (state_view self.old)) (state_view self.new) result }
    {
        match word {
            Word::Key(key) => self.take_key(alloc, key),
            Word::Partial(path) => self.take_partial(alloc, path),
            Word::If(key) => self.open_if(alloc, key, place),
            Word::For(key) => self.open_for(alloc, key, place),
            Word::Else => self.turn_to_else(alloc, place),
            Word::Sep => self.turn_to_sep(alloc, place),
            Word::EndIf => self.close_if(place),
            Word::EndFor => self.close_for(place),
        }
    }

    fn take_key(&mut self, alloc: Global, key: &[u8]) -> Result<(), Refusal<TemplateFault>>
        ensures { Steps (Ok (spec.with_node (key_node key.now) (state_view self.old))) (state_view self.new) result }
    {
        let key = Text::from_slice(alloc, key)?;
        self.push(Node::Key(key))?;
        Ok(())
    }

    fn take_partial(&mut self, alloc: Global, path: &[u8]) -> Result<(), Refusal<TemplateFault>>
        ensures { Steps (Ok (spec.with_node (partial_node path.now) (state_view self.old))) (state_view self.new) result }
    {
        let path = Text::from_slice(alloc, path)?;
        self.push(Node::Partial(path))?;
        Ok(())
    }

    fn open_if(
        &mut self,
        alloc: Global,
        key: &[u8],
        place: u64,
    ) -> Result<(), Refusal<TemplateFault>>
        ensures { Steps (spec.opening place spec.if_frame key.now (state_view self.old)) (state_view self.new) result }
    {
        let head = self.begin(alloc, key, place)?;
        self.push_form(Frame::If(head))?;
        Ok(())
    }

    fn open_for(
        &mut self,
        alloc: Global,
        key: &[u8],
        place: u64,
    ) -> Result<(), Refusal<TemplateFault>>
        ensures { Steps (spec.opening place spec.for_frame key.now (state_view self.old)) (state_view self.new) result }
    {
        let head = self.begin(alloc, key, place)?;
        self.push_form(Frame::For(head))?;
        Ok(())
    }

    /// The head of one more form, which has no nodes yet.
    fn begin(
        &mut self,
        alloc: Global,
        key: &[u8],
        place: u64,
    ) -> Result<Head, Refusal<TemplateFault>>
        ensures { Begins place key.now (state_view self.old) (state_view self.new) result }
    {
        if self.forms.len() >= MOST_FORMS {
            return Err(Refusal::Fault(TemplateFault::TooDeep { place }));
        }
        let key = Text::from_slice(alloc, key)?;
        let outer = mem::replace(&mut self.nodes, Vec::new(alloc));
        Ok(Head { place, key, outer })
    }

    fn turn_to_else(&mut self, alloc: Global, place: u64) -> Result<(), Refusal<TemplateFault>>
        ensures { Steps (spec.else_step place (nodes_view self.old.nodes.items) (forms_view self.old.forms.items)) (state_view self.new) result }
    {
        match self.pop_form() {
            Some(Frame::If(head)) => {
                let yes = mem::replace(&mut self.nodes, Vec::new(alloc));
                self.push_form(Frame::Else(head, yes))?;
                Ok(())
            }
            _ => Err(Refusal::Fault(TemplateFault::BadForm { place })),
        }
    }

    fn turn_to_sep(&mut self, alloc: Global, place: u64) -> Result<(), Refusal<TemplateFault>>
        ensures { Steps (spec.sep_step place (nodes_view self.old.nodes.items) (forms_view self.old.forms.items)) (state_view self.new) result }
    {
        match self.pop_form() {
            Some(Frame::For(head)) => {
                let each = mem::replace(&mut self.nodes, Vec::new(alloc));
                self.push_form(Frame::Sep(head, each))?;
                Ok(())
            }
            _ => Err(Refusal::Fault(TemplateFault::BadForm { place })),
        }
    }

    fn close_if(&mut self, place: u64) -> Result<(), Refusal<TemplateFault>>
        ensures { Steps (spec.endif_step place (nodes_view self.old.nodes.items) (forms_view self.old.forms.items)) (state_view self.new) result }
    {
        match self.pop_form() {
            Some(Frame::If(head)) => {
                let Head {
                    place: _,
                    key,
                    outer,
                } = head;
                let yes = mem::replace(&mut self.nodes, outer);
                self.push(Node::If { key, yes, no: None })?;
                Ok(())
            }
            Some(Frame::Else(head, yes)) => {
                let Head {
                    place: _,
                    key,
                    outer,
                } = head;
                let no = mem::replace(&mut self.nodes, outer);
                self.push(if_else(key, yes, no))?;
                Ok(())
            }
            _ => Err(Refusal::Fault(TemplateFault::BadForm { place })),
        }
    }

    fn close_for(&mut self, place: u64) -> Result<(), Refusal<TemplateFault>>
        ensures { Steps (spec.endfor_step place (nodes_view self.old.nodes.items) (forms_view self.old.forms.items)) (state_view self.new) result }
    {
        match self.pop_form() {
            Some(Frame::For(head)) => {
                let Head {
                    place: _,
                    key,
                    outer,
                } = head;
                let each = mem::replace(&mut self.nodes, outer);
                self.push(Node::For {
                    key,
                    each,
                    sep: None,
                })?;
                Ok(())
            }
            Some(Frame::Sep(head, each)) => {
                let Head {
                    place: _,
                    key,
                    outer,
                } = head;
                let sep = mem::replace(&mut self.nodes, outer);
                self.push(for_sep(key, each, sep))?;
                Ok(())
            }
            _ => Err(Refusal::Fault(TemplateFault::BadForm { place })),
        }
    }

    #[tactic(auto, using(crate::proofs::Nodes::forms_view_push))]
    fn push_form(&mut self, frame: Frame) -> Result<(), NoMemory>
        ensures forms { OnOk result (forms_view self.new.forms.items ≡ frame_view frame ∷ forms_view self.old.forms.items) }
        ensures nodes { self.new.nodes ≡ self.old.nodes }
    {
        self.forms.push(frame)?;
        Ok(())
    }

    #[tactic(auto, using(crate::proofs::Nodes::forms_view_push))]
    fn pop_form(&mut self) -> Option<Frame>
        ensures forms { MatchOption result (forms_view self.old.forms.items ≡ [])
            (λ frame. forms_view self.old.forms.items ≡ frame_view frame ∷ forms_view self.new.forms.items) }
        ensures nodes { self.new.nodes ≡ self.old.nodes }
    {
        self.forms.pop()
    }
}

fn if_else(key: Text, yes: Vec<Node>, no: Vec<Node>) -> Node
    ensures { node_view result ≡ if_else_node key (nodes_view yes.items) (nodes_view no.items) }
{
    Node::If {
        key,
        yes,
        no: Some(no),
    }
}

fn for_sep(key: Text, each: Vec<Node>, sep: Vec<Node>) -> Node
    ensures { node_view result ≡ for_sep_node key (nodes_view each.items) (nodes_view sep.items) }
{
    Node::For {
        key,
        each,
        sep: Some(sep),
    }
}
