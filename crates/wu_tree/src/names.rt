//! Names in directories.
ghost use Rattle.std.specs.Prelude.{◌≡◌};
ghost use Rattle.wu_tree.specs.FileSystems.{is_name as name_test, is_name_length, are_name_bytes, is_dots as dots_test};

use wu_base::NAME_MAX;

/// Whether these bytes may be the name of a link: 1 to 255 bytes, none of them `/` or NUL, and neither
/// `.` nor `..`. Takes no memory.
pub(crate) fn is_name(name: &[u8]) -> bool
    ensures { result ≡ name_test name.now }
{
    has_name_length(name) && has_name_bytes(name) && !is_dots(name)
}

fn has_name_length(name: &[u8]) -> bool
    ensures { result ≡ is_name_length name.now }
{
    0 < name.len() && name.len() <= NAME_MAX
}

fn has_name_bytes(name: &[u8]) -> bool
    ensures { result ≡ are_name_bytes name.now }
{
    name.iter().all(|byte| *byte != b'/' && *byte != 0)
}

fn is_dots(name: &[u8]) -> bool
    ensures { result ≡ dots_test name.now }
{
    name == b".".as_slice() || name == b"..".as_slice()
}
