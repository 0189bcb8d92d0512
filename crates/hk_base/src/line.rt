// Lines of a text.
ghost use Rattle.std.specs.Prelude.{◌≡◌, ◌≤◌, ◌<◌, length, drop, IfSome};
ghost use Rattle.hk_base.specs.Line as spec;
ghost use Rattle.hk_base.specs.Line.{line_end, line_next};

/// A line of a text, from where it was asked for: where its bytes end, and where the next line begins.
#[derive(Clone, Copy, Debug, PartialEq, Eq, Drop)]
pub struct Line {
    pub end: usize,
    pub next: usize,
}

/// Cuts at the next LF at or after `from`. `end` leaves out one CR before that LF. Without an LF the line ends with
/// the text. Linear in the line; takes no memory.
pub fn next_line(bytes: &[u8], from: usize) -> Line
    requires { from ≤ length bytes.now }
    ensures end { result.end ≡ line_end bytes.now from }
    ensures next { result.next ≡ line_next bytes.now from }
{
    match before_feed(&bytes[from..]) {
        Some(count) => Line {
            end: from + without_return(&bytes[from..from + count]),
            next: from + count + 1,
        },
        None => Line {
            end: bytes.len(),
            next: bytes.len(),
        },
    }
}

fn before_feed(bytes: &[u8]) -> Option<usize>
    ensures value { result ≡ spec.before_feed bytes.now }
    ensures bound { IfSome result (λ count. count < length bytes.now) }
{
    bytes.iter().position(|byte| *byte == b'\n')
}

/// How many bytes stand before a CR at the end.
fn without_return(line: &[u8]) -> usize
    ensures value { result ≡ spec.without_return line.now }
    ensures bound { result ≤ length line.now }
{
    match line.last() {
        Some(b'\r') => line.len() - 1,
        _ => line.len(),
    }
}
