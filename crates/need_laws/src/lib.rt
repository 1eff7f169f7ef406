//! Laws of what a job needs of its index, each as the contract of a function that does nothing: the cells and the operations
//! that a job is reckoned at are enough for each version of it and for all that its transactions work on.
#![tactic(auto)]

ghost use Rattle.std.specs.Prelude.{◌≡◌, ◌+◌, ◌≤◌, ℕ, List, length, map, Some, Ok};
ghost use Rattle.need_laws.specs.Prelude.{AllByRecursion, Name, IsName, Version, CanBeDumped, FedJob, Job, fed_job_of, job_of, cell_count};
ghost use Rattle.need_laws.specs.Prelude.{cells_of_commands, most_cells, most_operations, Lawful, Pair, all_pairs, passes_for, Fed, FedPair, all_numbers};
ghost use Rattle.need_laws.specs.Prelude.{by_worker, passes_fed, is_roomy, IsLeast, room_in, AllOctets, AllAsked, AreFedOutcomesOf, AreOutcomesOf};
ghost use Rattle.need_laws.specs.Prelude.{AllFedFindRoom, AllFindRoom, AllNameFew, IsSaidJob};
ghost use Rattle.need_laws.specs.Prelude.{IsSaidList, IsSized, IsSizedList, HaveFewCells, HaveFewOperations};

/// No version of a job has more cells than the job is reckoned at, and no transaction of it works on more, however it ends. The
/// commands may have any outcomes: those that are lawful are some of them.
pub fn jobs_have_few_cells()
    ensures { (job : Job) → IsSaidJob job → (workers : List (List Pair)) → AreOutcomesOf job workers
        → HaveFewCells (most_cells job) job.origin job.zone (all_pairs workers) }
{}

/// So it is of some commands alone, as of those that have ended: they need the cells of the zone, and those of what they add.
pub fn commands_have_few_cells()
    ensures { (origin : Name) (zone : Version) (pairs : List Pair) → CanBeDumped origin zone → AllByRecursion (λ pair. AllAsked origin pair.0) pairs
        → HaveFewCells (cell_count zone + cells_of_commands (map (λ pair. pair.0) pairs)) origin zone pairs }
{}

/// No transaction of a job has more operations than the longest, and so none that made a version.
pub fn jobs_have_few_operations()
    ensures { (job : Job) (workers : List (List Pair)) → AreOutcomesOf job workers → HaveFewOperations (most_operations job) (all_pairs workers) }
{}

/// A job that octets say is one of which the laws speak.
pub fn jobs_are_said()
    ensures { (origin : Name) (bytes : List ℕ) (job : Job) → IsName origin → AllOctets bytes → job_of origin bytes ≡ Ok job → IsSaidJob job }
{}

/// So is a job of octets that is one list of commands.
pub fn lists_are_said()
    ensures { (origin : Name) (bytes : List ℕ) (job : FedJob) → IsName origin → AllOctets bytes
        → fed_job_of origin bytes ≡ Ok job → IsSaidList job }
{}

/// A job's zone has room in as many chunks as the job needs, and in more.
pub fn zones_have_room()
    ensures { (job : Job) (least chunks : ℕ)
        → IsLeast (passes_for (length job.workers)) (most_cells job) (most_operations job) (Some least) → least ≤ chunks
        → cell_count job.zone ≤ room_in chunks }
{}

/// The least number of chunks that is enough is so, and so is each greater one.
pub fn least_is_enough()
    ensures { (passes cells operations least chunks : ℕ) → IsLeast passes cells operations (Some least) → least ≤ chunks
        → is_roomy passes cells operations chunks }
{}

/// On an index of chunks that are enough for a job none of its transactions is refused as full. The outcomes are those that are lawful
/// there, as each job's are that is run.
pub fn sized_jobs_find_room()
    ensures { (job : Job) → IsSaidJob job → (workers : List (List Pair)) → AreOutcomesOf job workers → (chunks last : ℕ) → IsSized job chunks
        → Lawful chunks (passes_for (length job.workers)) job.origin job.zone workers last → AllFindRoom (all_pairs workers) }
{}

/// A job of small sets finds room on 64 chunks, as many as an index has where nobody asks for others, while at most one version is kept
/// beside the one that a transaction is on. How many operations a transaction has doesn't matter, nor how many workers there are.
pub fn small_sets_find_room()
    ensures { (job : Job) → IsSaidJob job → (workers : List (List Pair)) → AreOutcomesOf job workers
        → HaveFewCells 768 job.origin job.zone (all_pairs workers) → AllNameFew 2 (all_pairs workers)
        → (passes last : ℕ) → Lawful 64 passes job.origin job.zone workers last → AllFindRoom (all_pairs workers) }
{}

/// So it is of one list of commands that was handed out to so many workers, by the passes that these have.
pub fn sized_lists_find_room()
    ensures { (job : FedJob) → IsSaidList job → (fed : List FedPair) → AreFedOutcomesOf job fed → (workers chunks last : ℕ)
        → IsSizedList job workers chunks
        → Fed (length job.commands) (all_numbers workers fed)
        → Lawful chunks (passes_fed workers) job.origin job.zone (by_worker workers fed) last → AllFedFindRoom fed }
{}
