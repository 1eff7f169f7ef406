//! Laws of scripts over several zones, each as the contract of a function that does nothing.
ghost use Rattle.std.specs.Prelude.{◌≡◌, ◌+◌, ℕ, List, Ok};
ghost use Rattle.zones_script.specs.Prelude.{Name, Command, script_of, AreLists};

/// A script over zones has a worker, and no more than there may be, each with no more commands than there may be. These are of the
/// zones that there are; and what a block says is what its lines say in a script of its zone alone. Lines count from 1.
pub fn scripts_tell_their_zones()
    ensures { (origins : List Name) (n : ℕ) (lines : List (List ℕ)) (workers : List (List Command))
        → script_of origins (n + 1) lines ≡ Ok workers → AreLists origins lines workers }
{}
