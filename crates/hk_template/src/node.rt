// The nodes of a template.
use hk_base::Text;

/// A node of a template. Nothing in it is borrowed from the text that it was read from.
#[derive(Debug, Drop)]
#[cycle(tree)]
pub enum Node {
    /// Bytes that stand for themselves.
    Text(Text),
    /// `$$`: one dollar sign.
    Dollar,
    /// `$key$`: the text of a key.
    Key(Text),
    /// `$if(key)$`, up to its `$endif$`. `no` is what stands after an `$else$`.
    If {
        key: Text,
        yes: Vec<Node>,
        no: Option<Vec<Node>>,
    },
    /// `$for(key)$`, up to its `$endfor$`. `sep` is what stands after a `$sep$`.
    For {
        key: Text,
        each: Vec<Node>,
        sep: Option<Vec<Node>>,
    },
    /// `$partial("path")$`: another template.
    Partial(Text),
}
