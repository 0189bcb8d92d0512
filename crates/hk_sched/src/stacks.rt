// Items on stacks, each on one at most: the fresh ones, the woken ones, and those that wait for a pair.
ghost use Rattle.std.specs.Prelude.{◌≡◌, ℕ, ◌<◌, length, replicate, slice_set, Some, None, IfOk, MatchOption, false};
ghost use Rattle.hk_chain.specs.Kept.{at_place};
ghost use Rattle.hk_sched.specs.Stacks.{StacksView, HasStack, stack_index, is_on};

use hk_base::NoMemory;
use hk_chain::{ItemNo, PairNo};
use std::alloc::Global;
use std::marker::Model;

/// A stack of items.
#[derive(Clone, Copy)]
pub enum Stack {
    /// Items to begin.
    Fresh,
    /// Items whose compiler goes on.
    Woken,
    /// Items whose compiler waits for the pair.
    Waiting(PairNo),
}

/// Which stack each item is on, with links through arrays: no call but `new` takes memory, and each is constant.
#[derive(Drop)]
pub struct Stacks {
    tops: Vec<Option<ItemNo>>,
    next: Vec<Option<ItemNo>>,
    stack_of: Vec<Option<Stack>>,
}

impl Model for Stacks {
    ghost use Rattle.std.specs.Prelude.{◌-◌, ◌≤◌, length};
    ghost use Rattle.hk_sched.specs.Stacks.{StacksView, AreStacks};

    ghost Value = { StacksView };

    ghost view = { λ s. record { pairs = length s.tops.items - 2; stack_of = s.stack_of.items } };

    ghost invariant = { λ s. AreStacks s.tops.items s.next.items s.stack_of.items × (2 ≤ length s.tops.items) };
}

impl Stacks {
    /// No item is on a stack. `NoMemory` only for want of memory. Linear in the items and pairs.
    pub fn new(alloc: Global, items: u32, pairs: u32) -> Result<Stacks, NoMemory>
        ensures { IfOk result (λ s. s ≡ record { pairs = pairs; stack_of = replicate items None }) }
    {
        Ok(Stacks {
            tops: vec![in alloc; None; pairs as usize + 2]?,
            next: vec![in alloc; None; items as usize]?,
            stack_of: vec![in alloc; None; items as usize]?,
        })
    }

    /// Puts an item on top.
    pub fn push(&mut self, stack: Stack, item: ItemNo)
        requires free { at_place self.old.stack_of item ≡ None }
        requires item { item < length self.old.stack_of }
        requires stack { HasStack self.old.pairs stack }
        ensures { self.new ≡ record self.old { stack_of = slice_set self.old.stack_of item (Some stack) } }
    {
        let place = index_of(&stack);
        self.next[item.0 as usize] = self.tops[place];
        self.tops[place] = Some(item);
        self.stack_of[item.0 as usize] = Some(stack);
    }

    /// Takes the item from the top, and none exactly where the stack is empty.
    pub fn pop(&mut self, stack: Stack) -> Option<ItemNo>
        requires { HasStack self.old.pairs stack }
        ensures { MatchOption result (((i : ℕ) → is_on stack (at_place self.old.stack_of i) ≡ false) × (self.new ≡ self.old)) (λ i. (i < length self.old.stack_of) × (at_place self.old.stack_of i ≡ Some stack) × (self.new ≡ record self.old { stack_of = slice_set self.old.stack_of i None })) }
    {
        let place = index_of(&stack);
        match self.tops[place] {
            None => None,
            Some(item) => {
                self.tops[place] = self.next[item.0 as usize];
                self.stack_of[item.0 as usize] = None;
                Some(item)
            }
        }
    }
}

fn index_of(stack: &Stack) -> usize
    ensures { result ≡ stack_index stack.now }
{
    match stack {
        Stack::Fresh => 0,
        Stack::Woken => 1,
        Stack::Waiting(pair) => pair.0 as usize + 2,
    }
}
