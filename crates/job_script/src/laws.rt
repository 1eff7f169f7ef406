//! Laws of jobs, each as the contract of a function that does nothing.
ghost use Rattle.std.specs.Prelude.{◌≡◌, ℕ, List, Result};
ghost use Rattle.job_script.specs.Prelude.{Name, Job, JobRefusal, job_of, SaysJob};

/// Bytes say the job, or are refused for what, the grammar of lines spells: entry by entry of the zone, and line by line of
/// the script. The grammar spells one for all bytes, and no two.
pub fn jobs_are_spelled()
    ensures spelled { (origin : Name) (bytes : List ℕ) → SaysJob origin bytes (job_of origin bytes) }
    ensures only { (origin : Name) (bytes : List ℕ) (out : Result Job JobRefusal) → SaysJob origin bytes out → job_of origin bytes ≡ out }
{}
