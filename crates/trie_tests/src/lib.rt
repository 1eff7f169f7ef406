//! Tests of the crates from nodes to changes of a trie, and of what moves cells, in a crate of their own: a crate with tests is proved
//! twice.
#![tactic(auto)]

#[cfg(test)]
mod crowded;
#[cfg(test)]
mod evacuations;
#[cfg(test)]
mod few_names;
#[cfg(test)]
mod items;
#[cfg(test)]
mod keys;
#[cfg(test)]
mod long_items;
#[cfg(test)]
mod made;
#[cfg(test)]
mod many_names;
#[cfg(test)]
mod numbered;
#[cfg(test)]
mod packing;
#[cfg(test)]
mod reading;
#[cfg(test)]
mod room;
#[cfg(test)]
mod thinned;
#[cfg(test)]
mod tries;
#[cfg(test)]
mod usage;
#[cfg(test)]
mod walks;
