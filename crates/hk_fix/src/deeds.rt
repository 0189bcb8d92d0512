// Why compilers whose deeds are proper keep the laws of a family.
ghost use Rattle.std.specs.Prelude.{◌≡◌};
ghost use Rattle.hk_base.specs.Identifier.{Ident};
ghost use Rattle.hk_chain.specs.declared.page.Page.{Page};
ghost use Rattle.hk_fix.specs.Task.{◌▷◌};
ghost use Rattle.hk_fix.specs.Chains.{AreChains};
ghost use Rattle.hk_fix.specs.Table.{Table};
ghost use Rattle.hk_fix.specs.Deed.{Deed, ◌then◌, interpret};
ghost use Rattle.hk_fix.specs.Deeds.{Deeds, on_way, task_of, AreProper};

/// Where each item's deed asks for no page twice in a group and saves the item's pages in order, and the numbers of
/// pairs are those of their keys, the tasks of the deeds are chains, and so their runs keep all laws of a family. One
/// deed after another is one task after another.
pub fn deeds_keep_laws()
    ensures laws { (deeds : Deeds) → AreProper deeds → AreChains deeds.table.layout (task_of deeds) (on_way deeds) }
    ensures in_turn { (table : Table) (own : Ident) (first : Deed Page) (next : Page → Deed Page)
        → interpret table own (first then next) ≡ interpret table own first ▷ (λ page. interpret table own (next page)) }
{}
