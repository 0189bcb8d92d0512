// The lines of a text, one at a time.
ghost use Rattle.std.specs.Prelude.{◌≡◌, ◌+◌, ◌<◌, ◌∷◌, length};
ghost use Rattle.hk_meta.specs.Lines as spec;

use hk_base::next_line;

/// The text of a line without its end, and what follows the line.
#[derive(Clone, Copy)]
pub(crate) struct Cut<'a> {
    pub text: &'a [u8],
    pub rest: &'a [u8],
}

/// Cuts a text behind its first line.
pub(crate) fn cut_line(text: &[u8]) -> Cut<'_>
    requires { 0 < length text.now }
    ensures lines { spec.all_lines text.now ≡ spec.first_line text.now ∷ spec.all_lines result.rest.now }
    ensures text { result.text.now ≡ spec.line_text (spec.first_line text.now) }
    ensures size { length (spec.first_line text.now) + length result.rest.now ≡ length text.now }
    ensures some { 0 < length (spec.first_line text.now) }
{
    let line = next_line(text, 0);
    Cut {
        text: &text[..line.end],
        rest: &text[line.next..],
    }
}
