//! What a trie is: a tree of entries that lies in a memory of cells, the references that it reaches, and its shape as a
//! function of its keys. The contracts of the crates that read and change tries cite these definitions.
//!
//! The functions here do nothing. The contract of each is a law that follows from the definitions.
#![tactic(auto)]

ghost use Rattle.trie_model.specs.Laws.{KeysAreRead, LeavesRise, OnePlace, NodesAreOfTheKeys, CellsAreOfTheEntries, ReachIsWeighed, LiveIsWeighed, ReachIsTested, CellsAreFew, BeginningsAreAbove, LabelsAreEnded, KeysAreCanonical};

/// A key is told by what it reads at each place, so that 0 past its end leaves no doubt.
pub fn keys_are_read()
    ensures { KeysAreRead }
{}

/// A walk through the leaves, in twig order, meets the keys in order.
pub fn leaves_rise()
    ensures { LeavesRise }
{}

/// What a list becomes by an insertion is determined.
pub fn one_place()
    ensures { OnePlace }
{}

/// What is said of keys is so of their names: which come first, which are above others, and how many labels they have.
pub fn keys_are_of_names()
    ensures order { KeysAreCanonical }
    ensures above { BeginningsAreAbove }
    ensures labels { LabelsAreEnded }
{}

/// A trie's shape is a function of the keys in it, in whatever order they came.
pub fn shape_is_of_the_keys()
    ensures nodes { NodesAreOfTheKeys }
    ensures cells { CellsAreOfTheEntries }
{}

/// What is said of the reached references by a walk through the tree is so of their list.
pub fn reach_is_a_list()
    ensures weighed { ReachIsWeighed }
    ensures live { LiveIsWeighed }
    ensures tested { ReachIsTested }
{}

/// No cell is met twice, so there is room for what a trie says of itself in 32 bits.
pub fn cells_are_few()
    ensures { CellsAreFew }
{}

#[cfg(test)]
mod tests;
