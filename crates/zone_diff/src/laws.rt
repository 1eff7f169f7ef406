//! Laws of differences, each as the contract of a function that does nothing.

ghost use Rattle.std.specs.Prelude.{◌≡◌, ◌<◌, ◌≤◌, List, length, ◌++◌, Ok};
ghost use Rattle.zone_diff.specs.Prelude.{Serial, Keep, Name, Version, Operation, all_applied, CanBeDumped, difference, made, CutAt};
ghost use Rattle.zone_diff.specs.Prelude.{blocks, block_limit, in_turn, StopsAt, AllByRecursion};
ghost use Rattle.std.specs.Prelude.{ℕ, ◌+◌, ◌*◌, map};
ghost use Rattle.zone_diff.specs.Prelude.{Script, TakesCommands, committed, lines_of, list_of, script_from, text_in, zone_at};
ghost use Rattle.zone_diff.specs.declared.DiffStyle.TheVariants.{Script as AsScript};
ghost use Rattle.zone_diff.specs.Prelude.{Entry, IsEntry, Side, changes_walked, entry_changes};

/// Of two zones of one origin the difference makes of the one before the one after. No rule refuses any operation of it. Where a change
/// of the serial alone doesn't count, what is made has the SOA from before if the one after counts as the same.
pub fn differences_make_the_other()
    ensures every { (origin : Name) (before after : Version) → CanBeDumped origin before → CanBeDumped origin after
        → all_applied origin (difference Keep before after) before ≡ Ok after }
    ensures but_serials { (mode : Serial) (origin : Name) (before after : Version) → CanBeDumped origin before → CanBeDumped origin after
        → all_applied origin (difference mode before after) before ≡ Ok (made mode origin before after) }
{}

/// A difference may be cut anywhere, as into transactions: what stands before the cut is taken and leaves a zone, and what stands behind
/// it makes of that what is due.
pub fn differences_may_be_cut()
    ensures { (mode : Serial) (origin : Name) (before after : Version) (front back : List Operation) → CanBeDumped origin before → CanBeDumped origin after
        → difference mode before after ≡ front ++ back → (middle : Version) × CutAt origin front back before (made mode origin before after) middle }
{}

/// In transactions of at most 10,000 operations each, which are taken one after another, a difference makes what is due, and behind each
/// of them stands a zone.
pub fn differences_in_transactions()
    ensures sizes { (all : List Operation) → AllByRecursion (λ (block : List Operation). (0 < length block) × (length block ≤ block_limit)) (blocks all) }
    ensures every { (mode : Serial) (origin : Name) (before after : Version) → CanBeDumped origin before → CanBeDumped origin after
        → in_turn origin (blocks (difference mode before after)) before ≡ Ok (made mode origin before after) }
    ensures zones { (mode : Serial) (o : Name) (before after : Version) (front back : List (List Operation)) → CanBeDumped o before → CanBeDumped o after
        → blocks (difference mode before after) ≡ front ++ back → (middle : Version) × StopsAt o front back before (made mode o before after) middle }
{}

/// What goes and what comes of an entry is found by going through the RRsets of both versions side by side, each looked at once.
pub fn differences_side_by_side()
    ensures { (side : Side) (owner : Name) (others sets : Entry) → IsEntry others → IsEntry sets
        → changes_walked side owner others sets ≡ entry_changes side owner others sets }
{}

/// The text of a difference as a script says its transactions, as blocks `update` that are committed: where it is one list of commands,
/// and wherever else commands may come, as behind a `worker` or in a live session. A list has at most 10,000 commands.
pub fn differences_read_back()
    ensures list { (mode : Serial) (o : Name) (b a : Version) → CanBeDumped o b → CanBeDumped o a → (line : ℕ) → length (blocks (difference mode b a)) ≤ 10000
        → list_of o line (lines_of (text_in AsScript o (difference mode b a))) ≡ Ok (map committed (blocks (difference mode b a))) }
    ensures anywhere { (mode : Serial) (o : Name) (b a : Version) → CanBeDumped o b → CanBeDumped o a → (line : ℕ) (s : Script) → TakesCommands s
        → length s.commands + length (blocks (difference mode b a)) ≤ 10000 → script_from o line (lines_of (text_in AsScript o (difference mode b a))) s
        ≡ Ok (record s { commands = s.commands ++ map committed (blocks (difference mode b a)) }) }
{}

/// A difference of two zones that lines say has at most one operation for each line of the one before, and two for each of the one after.
/// All of its transactions but the last are full.
pub fn differences_are_few()
    ensures operations { (mode : Serial) (origin : Name) (m n : ℕ) (lines lines' : List (List ℕ)) (before after : Version) → CanBeDumped origin before
        → zone_at m origin lines ≡ Ok before → zone_at n origin lines' ≡ Ok after → length (difference mode before after) ≤ length lines + 2 * length lines' }
    ensures transactions { (operations : List Operation) → block_limit * length (blocks operations) < length operations + block_limit }
{}
