//! Tests of the outside and its adapters, of boards and of searches, by values from outside. They stand here so that no crate is
//! proved twice, once with its tests.
#![tactic(auto)]

#[cfg(test)]
mod adapters;
#[cfg(test)]
mod board;
#[cfg(test)]
mod folder;
#[cfg(test)]
mod gate;
#[cfg(test)]
mod outside;
#[cfg(test)]
mod search;
#[cfg(test)]
mod shifts;
#[cfg(test)]
mod watching;
