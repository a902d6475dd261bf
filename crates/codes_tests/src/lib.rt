//! Tests of scripts, of their statements and of their lines, of certificates of either version and checkpoints, of how a session starts, and of sessions
//! over sources, sinks, vaults and watchers in memory. They stand here so that no crate is proved twice, once with its tests.
#![tactic(auto)]

#[cfg(test)]
mod arguments;
#[cfg(test)]
mod certificates;
#[cfg(test)]
mod certified;
#[cfg(test)]
mod checkpoints;
#[cfg(test)]
mod documents;
#[cfg(test)]
mod gate;
#[cfg(test)]
mod lines;
#[cfg(test)]
mod machine;
#[cfg(test)]
mod points;
#[cfg(test)]
mod scripts;
#[cfg(test)]
mod sessions;
#[cfg(test)]
mod slots;
#[cfg(test)]
mod summary;
#[cfg(test)]
mod vaults;
#[cfg(test)]
mod watchers;
