//! Tests of information sets, plans and the kernel, of weight distributions and of nearest words, by values from outside. They stand
//! here so that no crate is proved twice, once with its tests.
#![tactic(auto)]

#[cfg(test)]
mod blocks;
#[cfg(test)]
mod distributions;
#[cfg(test)]
mod infosets;
#[cfg(test)]
mod kernel;
#[cfg(test)]
mod near;
#[cfg(test)]
mod plain;
#[cfg(test)]
mod plan;
#[cfg(test)]
mod planted;
#[cfg(test)]
mod shapes;
#[cfg(test)]
mod stack;
#[cfg(test)]
mod tasks;
