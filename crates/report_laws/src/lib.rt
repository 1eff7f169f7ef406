//! Laws of jobs and of their reports, each as the contract of a function that does nothing.
#![tactic(auto)]

ghost use Rattle.std.specs.Prelude.{◌≡◌, ◌<◌, ◌^◌, ℕ, List, length, Ok};
ghost use Rattle.report_laws.specs.Prelude.{AllByRecursion, Name, IsName, Version, Transaction, whole, zone_of, CanBeDumped, Command, Job, FedJob};
ghost use Rattle.report_laws.specs.Prelude.{script_of, list_of, job_of, fed_job_of, Pair, FedPair, summary, IsReportOf, AreApart, AreDone};
ghost use Rattle.report_laws.specs.Prelude.{AllOctets, AllSaid, AllAsked, ReadsBack, AreOutcomesOf, version_of, AreFedOutcomesOf, fed_version_of};

/// A text is the report of a job's commands with one list of lawful outcomes at most, and of one last version: how each
/// command ended, its version, and for want of room the operation and the versions that were kept. So what `run` writes
/// leaves none of them open. The text has fewer octets than 64 bits count, as any in memory has.
pub fn reports_leave_no_doubt()
    ensures { (origin : Name) (bytes : List ℕ) (job : Job) → job_of origin bytes ≡ Ok job
        → (text : List ℕ) → length text < 2 ^ 64
        → (chunks : ℕ) (a b : List (List Pair)) (m n : ℕ) → IsReportOf chunks job text a m → IsReportOf chunks job text b n
        → (a ≡ b) × (m ≡ n) }
{}

/// The summary of a job hangs on the job alone, whatever order its workers' steps come in, where no name is changed by two of them and no
/// block is refused: each name owns in the end what its own worker's transactions make of it, in their order.
pub fn summaries_leave_no_choice()
    ensures { (origin : Name) (bytes : List ℕ) (job : Job) → IsName origin → AllOctets bytes → job_of origin bytes ≡ Ok job → AreApart job.workers
        → (chunks : ℕ) (a b : List (List Pair)) (m n : ℕ) → AreDone chunks job a m → AreDone chunks job b n
        → summary job.origin job.zone a m ≡ summary job.origin job.zone b n }
{}

/// A zone that lines of octets say can be dumped.
pub fn zones_can_be_dumped()
    ensures { (origin : Name) (lines : List (List ℕ)) (zone : Version) → IsName origin → AllByRecursion AllOctets lines
        → zone_of origin lines ≡ Ok zone → CanBeDumped origin zone }
{}

/// What a transaction makes of a zone that can be dumped can be dumped too, where its operations are as scripts say them.
pub fn transactions_keep_zones()
    ensures { (origin : Name) (asked : Transaction) (zone next : Version) → AllSaid origin asked → CanBeDumped origin zone
        → whole origin asked zone ≡ Ok next → CanBeDumped origin next }
{}

/// The operations of a script of octets are so: of each worker's commands, and of one list of commands.
pub fn scripts_say_operations()
    ensures workers { (origin : Name) (start : ℕ) (lines : List (List ℕ)) (workers : List (List Command)) → IsName origin
        → AllByRecursion AllOctets lines → script_of origin start lines ≡ Ok workers → AllByRecursion (AllByRecursion (AllAsked origin)) workers }
    ensures one_list { (origin : Name) (start : ℕ) (lines : List (List ℕ)) (commands : List Command)
        → IsName origin → AllByRecursion AllOctets lines → list_of origin start lines ≡ Ok commands → AllByRecursion (AllAsked origin) commands }
{}

/// Each version of a job can be dumped, and its dump is read as the version. The job is said by octets. Its commands may have
/// any outcomes: those that are lawful are some of them.
pub fn versions_can_be_dumped()
    ensures { (origin : Name) (bytes : List ℕ) (job : Job) → IsName origin → AllOctets bytes → job_of origin bytes ≡ Ok job
        → (workers : List (List Pair)) → AreOutcomesOf job workers
        → (v : ℕ) → CanBeDumped origin (version_of job workers v) × ReadsBack origin (version_of job workers v) }
{}

/// So can each version of a job that is one list of commands, whichever workers ran them.
pub fn fed_versions_can_be_dumped()
    ensures { (origin : Name) (bytes : List ℕ) (job : FedJob) → IsName origin → AllOctets bytes → fed_job_of origin bytes ≡ Ok job
        → (fed : List FedPair) → AreFedOutcomesOf job fed → (workers v : ℕ)
        → CanBeDumped origin (fed_version_of job workers fed v) × ReadsBack origin (fed_version_of job workers fed v) }
{}
