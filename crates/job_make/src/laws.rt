//! A law of loads, as the contract of a function that does nothing.
ghost use Rattle.std.specs.Prelude.{◌≡◌, ◌<◌, ◌≤◌, ℕ, List, Ok};
ghost use Rattle.job_make.specs.Prelude.{Job, job_of, Load, made_origin, made_text, Pair, summary, AreDone};

/// The summary of a load is one, whichever order its workers' steps come in, where no block is refused: so it is a function of the
/// load's numbers.
pub fn loads_have_one_summary()
    ensures { (load : Load) → load.names ≤ 20000 → load.turns ≤ 10000 → 0 < load.workers → load.workers ≤ 16
        → (job : Job) → job_of made_origin (made_text load) ≡ Ok job
        → (chunks : ℕ) (a b : List (List Pair)) (m n : ℕ) → AreDone chunks job a m → AreDone chunks job b n
        → summary job.origin job.zone a m ≡ summary job.origin job.zone b n }
{}
