//! The folder that a path is in.
ghost use Rattle.std.specs.Prelude.{◌<◌, length};

/// The folder that the path is in (own): `.` for a name alone, and `/` for one right below the root.
/// No system opens the empty path.
pub fn folder_of(path: &str) -> &str
    ensures some { 0 < length result.now }
{
    let folder = path.rsplit_once('/').map_or(".", |parts| parts.0);
    if folder.is_empty() { "/" } else { folder }
}
