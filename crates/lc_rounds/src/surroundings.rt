//! What a session has around it.

/// What a session has around it beside its crew: the vault of its checkpoints and the watchers of its records.
#[derive(Drop)]
pub struct Surroundings<'a, V, W> {
    /// The vault of its checkpoints.
    pub vault: &'a mut V,
    /// The watchers of its records.
    pub watchers: &'a mut Vec<W>,
}
