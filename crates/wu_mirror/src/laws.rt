//! Laws of what a user finds, and of the order of a batch.
ghost use Rattle.std.specs.Prelude.{◌≡◌, ◌≢◌, ◌++◌, ℕ, false, List};
ghost use Rattle.std.specs.List.{AllByRecursion};
ghost use Rattle.wu_access.specs.declared.Want.TheVariants.{Execute};
ghost use Rattle.wu_tree.specs.declared.events.Event.{Event};
ghost use Rattle.wu_tree.specs.FileSystems.{FileSystem, groups_of};
ghost use Rattle.wu_tree.specs.Rules.{IsTree};
ghost use Rattle.wu_view.specs.Views.{may, user_with};
ghost use Rattle.wu_mirror.specs.declared.batches.Batch.{Batch};
ghost use Rattle.wu_mirror.specs.Acceptance.{AreAccepted, HasRoom, IsCarriedOut, IsTextIn, NamesOnce};
ghost use Rattle.wu_mirror.specs.Misfits.{Fits};
ghost use Rattle.wu_mirror.specs.Moments.{AgreesOutside, AtLast, IsText, LeadsTo, ShowsNoMore, TellsAllNames};
ghost use Rattle.wu_mirror.specs.Plans.{head_of, tail_of};
ghost use Rattle.wu_mirror.specs.Searches.{IsPartFor, MaySearch};

use wu_access::check_is_decided_by_cases;

/// A view grows with names and rights: where a file system is a part of another for a user, as far
/// as she may pass and with rights that let her in nowhere else, she may search by each path there
/// what she may search by it here.
pub fn a_view_grows_with_names_and_rights()
    ensures { (part whole : FileSystem) (uid : ℕ) → IsTree part → IsTree whole
        → groups_of part uid ≡ groups_of whole uid
        → IsPartFor (user_with uid (groups_of part uid)) part whole
        → (path : List ℕ) (ino : ℕ) → MaySearch part uid path ino → MaySearch whole uid path ino }
{
    check_is_decided_by_cases();
}

/// To whom the root is shut, nothing is shown.
pub fn a_shut_root_shows_nothing()
    ensures { (fs : FileSystem) (uid : ℕ) → IsTree fs
        → may fs (user_with uid (groups_of fs uid)) Execute 1 ≡ false
        → (path : List ℕ) (ino : ℕ) → MaySearch fs uid path ino → ⊥ }
{
    check_is_decided_by_cases();
}

/// While a batch is under way no user but 0 finds more than before it or after it, whatever else the
/// file system holds, as long as each event is accepted. Until the names that go are gone, each path by
/// which she finds a file leads her to it before the batch; from then on, after it. And from then until
/// the last text was given she finds no file that is given one, so that no new text is shown under old
/// rights, and no old one under new rights. The texts may come in any order.
pub fn nobody_finds_more()
    ensures { (batch : Batch) (texts : List Event) (before after : FileSystem) (uid : ℕ)
        → LeadsTo batch before after → AllByRecursion IsText texts → uid ≢ 0
        → ShowsNoMore batch texts before after uid }
{
    check_is_decided_by_cases();
}

/// After the last event of a batch that tells of all names there is what the batch leads to: outside the
/// mirror's closed directory each name and each node, with its rights and its list, and everybody's groups,
/// as long as each event is accepted.
pub fn a_batch_leaves_what_it_tells()
    ensures { (batch : Batch) (texts : List Event) (before after : FileSystem)
        → LeadsTo batch before after → TellsAllNames batch before after → AllByRecursion IsText texts
        → AtLast (λ fs. AgreesOutside fs after) before (head_of batch ++ texts ++ tail_of batch) }
{
    check_is_decided_by_cases();
}

/// Each event of a batch is accepted, whatever else the file system holds, and the mirror's own directory is
/// empty after the last: of a batch that fits and tells of all names, and whose names go and come once, where
/// the mirror's own directory is in the root and empty and no directory lies as deep as one may.
pub fn each_event_is_accepted()
    ensures { (batch : Batch) (texts : List Event) (before after : FileSystem)
        → LeadsTo batch before after → TellsAllNames batch before after → Fits batch
        → AllByRecursion NamesOnce batch.changes → HasRoom batch before after → AllByRecursion (IsTextIn after) texts
        → AreAccepted before (head_of batch ++ texts ++ tail_of batch) }
{
    check_is_decided_by_cases();
}

/// The three laws of such a batch in one: each event is accepted, at no moment anybody but user 0 finds more
/// than before it or after it, and after the last event there is what it leads to.
pub fn a_batch_is_carried_out()
    ensures { (batch : Batch) (texts : List Event) (before after : FileSystem)
        → LeadsTo batch before after → TellsAllNames batch before after → Fits batch
        → AllByRecursion NamesOnce batch.changes → HasRoom batch before after → AllByRecursion (IsTextIn after) texts
        → IsCarriedOut batch texts before after }
{
    check_is_decided_by_cases();
}
