//! The first field of a command's line.
ghost use Rattle.std.specs.Prelude.{◌≡◌};
ghost use Rattle.wu_script.specs.Words.{word_of};

/// What the first field of a line says.
#[derive(Drop)]
pub enum Word {
    User,
    Mkdir,
    Create,
    Text,
    Link,
    Unlink,
    Rmdir,
    Rename,
    Chmod,
    Chown,
    Acl,
    Count,
    Find,
    Rank,
    Paths,
    Terms,
    Top,
    Export,
    Weighed,
    Flush,
    Work,
    Stat,
    Save,
    Unknown,
}

/// The word that the field is.
#[tactic(auto, unfolding(crate::specs::Words::word_of))]
pub fn word_of(field: &[u8]) -> Word
    ensures { result ≡ word_of field.now }
{
    if field == b"user".as_slice() {
        Word::User
    } else if field == b"mkdir".as_slice() {
        Word::Mkdir
    } else if field == b"create".as_slice() {
        Word::Create
    } else if field == b"text".as_slice() {
        Word::Text
    } else if field == b"link".as_slice() {
        Word::Link
    } else if field == b"unlink".as_slice() {
        Word::Unlink
    } else if field == b"rmdir".as_slice() {
        Word::Rmdir
    } else if field == b"rename".as_slice() {
        Word::Rename
    } else if field == b"chmod".as_slice() {
        Word::Chmod
    } else if field == b"chown".as_slice() {
        Word::Chown
    } else if field == b"acl".as_slice() {
        Word::Acl
    } else if field == b"count".as_slice() {
        Word::Count
    } else if field == b"find".as_slice() {
        Word::Find
    } else if field == b"rank".as_slice() {
        Word::Rank
    } else if field == b"paths".as_slice() {
        Word::Paths
    } else if field == b"terms".as_slice() {
        Word::Terms
    } else if field == b"top".as_slice() {
        Word::Top
    } else if field == b"export".as_slice() {
        Word::Export
    } else if field == b"weighed".as_slice() {
        Word::Weighed
    } else if field == b"flush".as_slice() {
        Word::Flush
    } else if field == b"work".as_slice() {
        Word::Work
    } else if field == b"stat".as_slice() {
        Word::Stat
    } else if field == b"save".as_slice() {
        Word::Save
    } else {
        Word::Unknown
    }
}
