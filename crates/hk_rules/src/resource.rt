// Which files of a folder a build looks at.
ghost use Rattle.std.specs.Prelude.{◌≡◌, ◌==◌};
ghost use Rattle.std.specs.List.{list_any, slice_split};
ghost use Rattle.hk_rules.specs.Resource as spec;

/// Whether a build passes over the file: it is `site.toml`, it stands in `_site/` or `_cache/`, or a part of its path
/// between slashes begins with `.` or `#` or ends in `~` or `.swp`. One pass over the path; takes no memory.
pub fn is_ignored(path: &[u8]) -> bool
    ensures { result ≡ spec.is_ignored path.now }
{
    path == b"site.toml".as_slice()
        || path.starts_with(b"_site/")
        || path.starts_with(b"_cache/")
        || has_hidden_part(path)
}

fn has_hidden_part(path: &[u8]) -> bool
    ensures { result ≡ list_any spec.is_hidden (slice_split (λ b. b == 47) path.now) }
{
    path.split(|byte| *byte == b'/').any(|part| is_hidden(part))
}

fn is_hidden(part: &[u8]) -> bool
    ensures { result ≡ spec.is_hidden part.now }
{
    part.starts_with(b".")
        || part.starts_with(b"#")
        || part.ends_with(b"~")
        || part.ends_with(b".swp")
}

/// Whether the file goes with another one, as its path ends in `.metadata`. Constant; takes no memory.
pub fn is_companion(path: &[u8]) -> bool
    ensures { result ≡ spec.is_companion path.now }
{
    path.ends_with(b".metadata")
}
