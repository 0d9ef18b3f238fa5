//! Laws on what jobs make.
ghost use Rattle.std.specs.Prelude.{◌≡◌, [], List};
ghost use Rattle.std.specs.List.{flat_map};
ghost use Rattle.wu_outside.specs.Content.{Content};
ghost use Rattle.wu_layout.specs.Layouts.{lists_of};
ghost use Rattle.wu_layout.specs.Postings.{Posting, live_of};
ghost use Rattle.wu_job.specs.Jobs.{IsRight, JobState};
ghost use Rattle.wu_job.specs.Postings.{HoldPostings};

/// A law: where no term is left and the lists that a job has made are right, they are those of the postings of its
/// parts that were live when it began.
pub fn a_job_makes_the_live_postings()
    ensures { (content : Content) (job : JobState) (postings : List (List Posting)) → HoldPostings content job.parts postings
        → IsRight content job → job.terms_left ≡ [] → job.done ≡ lists_of (live_of job.live (flat_map (λ home. home) postings)) }
{}
