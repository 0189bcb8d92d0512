// A rendering that can be suspended.
ghost use Rattle.std.specs.Prelude.{◌≡◌, ◌<◌, [], false, length, IfOk, Contains};
ghost use Rattle.hk_template.specs.Template.{IsPrintable};
ghost use Rattle.hk_eval.specs.Noted.{no_facts as nothing};
ghost use Rattle.hk_eval.specs.Rendered.{rendered, fresh, told_page, Polls};

use crate::awaited::Awaited;
use crate::block::Block;
use crate::course::{Course, go};
use crate::notes::Notes;
use crate::place::Place;
use crate::render_step::RenderStep;
use crate::renderable::renders;
use crate::stack::Stack;
use crate::told::Told;
use hk_base::{NoMemory, Shared};
use hk_chain::{ContextNo, Facts, ItemNo, PageRef, PairNo};
use hk_rules::Plan;
use hk_template::Template;
use std::alloc::Global;
use std::marker::Model;

/// The rendering of a template, which stops where it asks for pages.
#[derive(Drop)]
pub struct Render {
    plan: Shared<Plan>,
    course: Course,
    is_spent: bool,
}

impl Model for Render {
    ghost use Rattle.std.specs.Prelude.{◌≡◌, false};
    ghost use Rattle.std.specs.Coded.{codes};
    ghost use Rattle.hk_rules.specs.contracts.plan.Plan as plans;
    ghost use Rattle.hk_template.specs.contracts.template.Template as templates;
    ghost use Rattle.hk_eval.specs.Rendered.{RenderView};
    ghost use Rattle.hk_eval.specs.Keeping.{Keeps, HasRoom, course_view};

    ghost Value = { RenderView };

    ghost coded = { Prim.hlevel (codes, plans.the_row.coded, templates.the_row.coded) };

    ghost view = { λ r. course_view r.plan r.course r.is_spent };

    ghost invariant = { λ r. (r.is_spent ≡ false → r.course.has_ended ≡ false → Keeps r.plan r.course) × HasRoom r.course };
}

impl Render {
    /// The rendering of a template at a context, an item and its page, which hasn't begun. `NoMemory` only for want of
    /// memory. Linear in the template.
    pub fn new(
        alloc: Global,
        plan: Shared<Plan>,
        tree: Template,
        context: ContextNo,
        item: ItemNo,
        page: PageRef,
    ) -> Result<Render, NoMemory>
        requires tree { IsPrintable tree }
        requires context { context < length plan.contexts }
        requires item { item < length plan.items }
        ensures { IfOk result (λ r. rendered r ≡ fresh plan tree (record { item = item; page = page; context = context })) }
    {
        renders(plan.get());
        let here = Place {
            item,
            page,
            context,
        };
        let block = Block::of_template(alloc, &tree)?;
        let stack = Stack::new(alloc, block, here.try_clone()?)?;
        let course = Course {
            tree,
            here,
            stack,
            told: Told::new(alloc),
            notes: Notes::new(alloc),
            awaits: Awaited::none(alloc),
            facts: no_facts(alloc),
            has_ended: false,
        };
        Ok(Render {
            plan,
            course,
            is_spent: false,
        })
    }

    /// Goes on to the text, to the pages that it wants, or to a fault: as the run under the answered pages ends. `NoMemory`
    /// only for want of memory; it answers that from then on. Linear in the work up to there: of what an earlier poll did,
    /// only what had to wait is done again.
    pub fn poll(&mut self, alloc: Global) -> Result<RenderStep, NoMemory>
        requires closed { self.old.awaits ≡ [] }
        requires going { self.old.has_ended ≡ false }
        ensures { Polls (rendered self.old) result (rendered self.new) }
    {
        if self.is_spent {
            return Err(NoMemory);
        }
        match go(alloc, self.plan.get(), &mut self.course) {
            Ok(step) => Ok(step),
            Err(NoMemory) => {
                self.is_spent = true;
                Err(NoMemory)
            }
        }
    }

    /// The asked pairs that weren't answered, in order. Takes no memory. Constant.
    pub fn open_pairs(&self) -> &[PairNo]
        ensures { result.now ≡ self.now.awaits }
    {
        self.course.awaits.as_slice()
    }

    /// Answers one open pair. Takes no memory. Logarithmic in the answered pairs, and linear in the open ones where the pair
    /// isn't the first of them.
    pub fn answer(&mut self, pair: PairNo, page: PageRef)
        requires { Contains self.old.awaits pair }
        ensures { rendered self.new ≡ told_page (rendered self.old) pair page }
    {
        self.course.awaits.take_out(pair);
        self.course.told.answer(pair, page);
    }

    /// The asked pairs and the used patterns of the whole rendering, once a poll answered its text, and nothing before. Takes
    /// no memory. Constant.
    pub fn facts(&self) -> &Facts
        ensures { result.now ≡ self.now.facts }
    {
        &self.course.facts
    }
}

fn no_facts(alloc: Global) -> Facts
    ensures { result ≡ nothing }
{
    Facts {
        asks: Vec::new(alloc),
        patterns: Vec::new(alloc),
        trace: Vec::new(alloc),
    }
}
