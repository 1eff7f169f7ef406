//! Laws of live sessions, each as the contract of a function that does nothing.
#![tactic(auto)]

ghost use Rattle.std.specs.Prelude.{◌≡◌, ℕ, Bool, List, Ok, ◌++◌, length, map};
ghost use Rattle.session_laws.specs.Prelude.{Answered, BeginsAnswered, Command, Ended, FedJob, IsFeedOf, Name, Replied, Reply, Runs, Said, Version};
ghost use Rattle.session_laws.specs.Prelude.{all_said, first_session, list_of, ready_text, session_lines, session_text};

/// Lines that are read as one list of commands say just these in a session, one after another: none of them is refused.
pub fn lists_are_sessions()
    ensures { (origin : Name) (start : ℕ) (lines : List (List ℕ)) (commands : List Command) → list_of origin start lines ≡ Ok commands
        → all_said (session_lines origin start lines first_session) ≡ map Runs commands }
{}

/// What a session prints behind its first line, where its lines say a list's commands and none is refused, is what a feed of one worker
/// prints of that list, on as many chunks; and all that such a feed may print is what a session may.
pub fn sessions_print_as_feeds()
    ensures session { (chunks : ℕ) (job : FedJob) (refused : Bool) (text : List ℕ)
        → Ended chunks job.origin job.zone (map Runs job.commands) refused text
        → (report : List ℕ) × (text ≡ ready_text (length job.zone) ++ report) × IsFeedOf 1 chunks job refused report }
    ensures feed { (chunks : ℕ) (job : FedJob) (refused : Bool) (report : List ℕ) → IsFeedOf 1 chunks job refused report
        → Ended chunks job.origin job.zone (map Runs job.commands) refused (ready_text (length job.zone) ++ report) }
{}

/// What was printed for some replies stays as it is when there are more: the text begins with it.
pub fn replies_come_behind_others()
    ensures { (chunks : ℕ) (origin : Name) (zone : Version) (said : List Said) (replies more : List Reply) (last : ℕ)
        → Replied chunks origin zone said replies last
        → (rest : List ℕ) × (session_text origin zone (replies ++ more) ≡ session_text origin zone replies ++ rest) }
{}

/// All that is due for lines begins with what is due for the first of them, whichever replies these got. So what lies in the sink where a
/// session asks for more is a front of what lies there at its end.
pub fn lines_come_behind_others()
    ensures answered { (chunks : ℕ) (origin : Name) (zone : Version) (start : ℕ) (lines others : List (List ℕ)) (text : List ℕ)
        → Answered chunks origin zone (session_lines origin start (lines ++ others) first_session).said text
        → BeginsAnswered chunks origin zone (session_lines origin start lines first_session).said text }
    ensures ended { (chunks : ℕ) (origin : Name) (zone : Version) (start : ℕ) (lines others : List (List ℕ)) (refused : Bool) (text : List ℕ)
        → Ended chunks origin zone (all_said (session_lines origin start (lines ++ others) first_session)) refused text
        → BeginsAnswered chunks origin zone (session_lines origin start lines first_session).said text }
{}
