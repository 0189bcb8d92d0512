// A template that was parsed.
ghost use Rattle.std.specs.Prelude.{IfOk, MatchOption};
ghost use Rattle.hk_eval.specs.Blocks.{block_nodes};
ghost use Rattle.hk_eval.specs.Templates.{IsTreeOf};

use crate::block::Block;
use hk_base::NoMemory;
use hk_chain::PageRef;
use std::marker::Model;

/// A page whose body has a tree, and the nodes of the tree.
#[derive(Drop)]
pub(crate) struct Parsed {
    page: PageRef,
    block: Block,
}

impl Model for Parsed {
    ghost use Rattle.hk_chain.specs.declared.page.Page.{Page};
    ghost use Rattle.hk_eval.specs.Blocks.{block_nodes};
    ghost use Rattle.hk_eval.specs.Templates.{IsTreeOf};

    ghost Value = { Page };

    ghost view = { λ p. p.page };

    ghost invariant = { λ p. IsTreeOf p.page.body (block_nodes p.block) };
}

impl Parsed {
    /// One more owner of a page, and of the nodes of its body's tree. A refusal counts as want of memory. Constant.
    pub(crate) fn new(page: &PageRef, block: &Block) -> Result<Parsed, NoMemory>
        requires { IsTreeOf page.now.body (block_nodes block.now) }
    {
        let page = page.try_clone()?;
        let block = block.try_clone()?;
        Ok(Parsed { page, block })
    }

    /// One more owner of the nodes, where this text is the one that was parsed. A refusal counts as want of memory. Linear in
    /// the text, which is compared.
    pub(crate) fn nodes_of(&self, text: &[u8]) -> Result<Option<Block>, NoMemory>
        ensures { IfOk result (λ o. MatchOption o (Unit {0}) (λ b. IsTreeOf text.now (block_nodes b))) }
    {
        if self.page.get().body.as_slice() == text {
            Ok(Some(self.block.try_clone()?))
        } else {
            Ok(None)
        }
    }
}
