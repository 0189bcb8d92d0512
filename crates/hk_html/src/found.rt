// The links of a whole HTML text.
ghost use Rattle.std.specs.Prelude.{◌≡◌, IfOk};
ghost use Rattle.hk_html.specs.Found.{ReadsAll};

use crate::scan::Scan;
use hk_base::NoMemory;
use std::alloc::Global;

/// Goes over a whole text. `NoMemory` only for want of memory. Linear, with room for the links.
pub fn read_links(alloc: Global, body: &[u8]) -> Result<Scan<'_>, NoMemory>
    ensures { IfOk result (λ scan. ReadsAll body.now scan) }
{
    let mut scan = Scan::new(alloc, body);
    while scan.at < body.len() {
        scan.piece()?;
    }
    Ok(scan)
}
