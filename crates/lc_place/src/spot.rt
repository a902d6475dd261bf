//! A spot: the message that a search has come to, and its information set.

ghost use Rattle.std.specs.Prelude.{◌≡◌, ℕ, ◌-◌, ◌≤◌, ◌++◌, ◌∷◌, List, [], length, take, IfOk};
ghost use Rattle.lc_enumeration.specs.Message.{numbers_from};

use crate::NoMemory;
use crate::order::move_to_end;
use std::alloc::Global;
use std::marker::Model;

/// A set and a message: the places of the support and the coefficients there. Of a message that a plan has come to, the places,
/// counted from 0, rise, and there are as many coefficients, from 1 to q - 1, the first one 1; a spot by itself holds any. Its
/// room is made once: a bound on the number of places that it can hold.
#[derive(Drop)]
pub struct Spot {
    pub(crate) set: usize,
    pub(crate) support: Vec<usize>,
    pub(crate) coefficients: Vec<u8>,
    pub(crate) room: usize,
}

impl Model for Spot {
    ghost use Rattle.std.specs.Prelude.{◌≡◌, ◌≤◌, vec_len, vec_capacity};
    ghost use Rattle.lc_place.specs.Place.{SpotState};

    ghost Value = { SpotState };

    ghost view = { λ s. record { set = s.set; support = s.support.items; coefficients = s.coefficients.items; room = s.room } };

    ghost invariant = { λ s. (s.room ≤ vec_capacity s.support) × (s.room ≤ vec_capacity s.coefficients) × (vec_len s.support ≤ s.room) × (vec_len s.coefficients ≤ s.room) };
}

impl Spot {
    /// A spot with set 0, no place and no coefficient, and room for messages of length `k`.
    pub fn new(alloc: Global, k: usize) -> Result<Spot, NoMemory>
        ensures { IfOk result (λ s. s ≡ record { set = 0; support = []; coefficients = []; room = k }) }
    {
        let support = Vec::with_capacity(alloc, k)?;
        let coefficients = Vec::with_capacity(alloc, k)?;
        Ok(Spot {
            set: 0,
            support,
            coefficients,
            room: k,
        })
    }

    /// Moves the last `count` places to the last ones of `k`, `k - count` to `k - 1`, and leaves all else. There are
    /// at least `count` places.
    pub fn to_last_places(&mut self, count: usize, k: usize)
        requires some { count ≤ length self.old.support }
        requires places { count ≤ k }
        ensures support { self.new.support ≡ take (length self.old.support - count) self.old.support ++ numbers_from
            (k - count) count }
        ensures coefficients { self.new.coefficients ≡ self.old.coefficients }
        ensures set { self.new.set ≡ self.old.set }
        ensures room { self.new.room ≡ self.old.room }
    {
        let place = self.support.len() - count;
        move_to_end(self.support.as_mut_slice(), place, k);
    }

    /// Sets the last two coefficients to `top`, and leaves all else. There are at least two coefficients.
    pub fn to_last_tail(&mut self, top: u8)
        requires two { 2 ≤ length self.old.coefficients }
        ensures coefficients { self.new.coefficients
            ≡ take (length self.old.coefficients - 2) self.old.coefficients ++ top ∷ top ∷ [] }
        ensures support { self.new.support ≡ self.old.support }
        ensures set { self.new.set ≡ self.old.set }
        ensures room { self.new.room ≡ self.old.room }
    {
        let level = self.coefficients.len();
        self.coefficients[level - 2] = top;
        self.coefficients[level - 1] = top;
    }

    /// The index of the information set, from 0.
    pub fn set(&self) -> usize
        ensures { result ≡ self.now.set }
    {
        self.set
    }

    /// The places of the message that aren't zero, counted from 0, which a plan leaves rising. There are at most as many as the
    /// room.
    pub fn support(&self) -> &[usize]
        ensures places { result.now ≡ self.now.support }
        ensures few { length self.now.support ≤ self.now.room }
    {
        self.support.as_slice()
    }

    /// The entries of the message at these places, which a plan leaves below the size of the field. There are at most as many
    /// as the room.
    pub fn coefficients(&self) -> &[u8]
        ensures entries { result.now ≡ self.now.coefficients }
        ensures few { length self.now.coefficients ≤ self.now.room }
    {
        self.coefficients.as_slice()
    }
}

// Proved only where its argument may go to another thread.
fn moves_to_a_thread<T: Send>(_value: &T) {}

// A spot is `Send`.
fn spot_moves_to_a_thread(spot: &Spot) {
    moves_to_a_thread(spot);
}
