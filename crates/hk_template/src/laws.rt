// The laws of the grammar.
ghost use Rattle.hk_template.specs.Parsing.{AsFunction, OneTree, ReadsAgain, TreeOrFault};
ghost use Rattle.hk_template.specs.Stop.{CutsAll};

/// A text has at most one tree; it has a tree exactly where it has no first fault; the grammar is also a function from
/// texts to trees or first faults; a printable tree is the tree of the text that it is printed as; and each text is cut
/// into tokens up to its end, or up to a dollar sign that begins no token. Does nothing.
pub fn grammar_laws()
    ensures one_tree { OneTree }
    ensures tree_or_fault { TreeOrFault }
    ensures as_function { AsFunction }
    ensures reads_again { ReadsAgain }
    ensures cuts_all { CutsAll }
{}
