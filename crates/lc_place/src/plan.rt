//! The plan: the phases of a search, their blocks, and the messages of a block.

ghost use Rattle.std.specs.Prelude.{◌≡◌, ℕ, ◌+◌, ◌-◌, ◌*◌, ◌/◌, ◌%◌, ◌^◌, ◌<◌, ◌≤◌, ◌++◌, ◌∷◌, [], Some, None, false, length, slice_get, slice_index, vec_len, vec_capacity, IfOk, IfSome, is_some, if◌then◌else◌, ◌≢◌, ◌↔◌, List, map, min};
ghost use Rattle.std.specs.List.{AllPairs, Contains, flat_map};
ghost use Rattle.lc_enumeration.specs.Message.{messages, message_count, numbers_from, vector_of, choose};
ghost use Rattle.lc_enumeration.specs.Plan.{total, phase_at, phase_set, phase_level, level_blocks, blocks_before, block_length, block_messages, IsInPhase};
ghost use Rattle.lc_place.specs.Order.{IsLeadingVector, MessageLess};
ghost use Rattle.lc_place.specs.Place.{spot_message, plan_phase, IsFirstChange};
ghost use Rattle.lc_place.specs.Tables.{IsTable, choose_entry, power_entry};

use crate::NoMemory;
use crate::fill::{fill_coefficients, fill_support};
use crate::order::{last_below, last_movable, move_on, raise, reset};
use crate::phase::Phase;
use crate::spot::Spot;
use crate::table::{MOST, Size};
use lc_enumeration::BLOCK;
use std::alloc::Global;
use std::marker::Model;

/// The order in which a search looks at the messages of length k over q elements, with m information sets:
/// level 1 with each set, then level 2 with each set, and so on, in blocks of 4,096 messages that are
/// numbered from 0 through all phases. Blocks from 2^40 on are cut off.
#[derive(Drop)]
pub struct Plan {
    size: Size,
    chooses: Vec<u64>,
    powers: Vec<u64>,
    counts: Vec<u64>,
    starts: Vec<u64>,
}

impl Model for Plan {
    ghost use Rattle.std.specs.Prelude.{◌+◌, ◌*◌};
    ghost use Rattle.lc_place.specs.Place.{PlanSize};
    ghost use Rattle.lc_place.specs.Tables.{IsTable, choose_entry, power_entry, count_entry, start_entry};

    ghost Value = { PlanSize };

    ghost view = { λ p. record { k = p.size.k; q = p.size.q; m = p.size.m } };

    ghost invariant = { λ p. IsTable choose_entry ((p.size.k + 1) * 256) p.chooses.items × IsTable (power_entry p.size.q) p.size.k p.powers.items × IsTable (count_entry p.size.k p.size.q) p.size.k p.counts.items × IsTable (start_entry p.size.k p.size.q p.size.m) (p.size.k + 1) p.starts.items };
}

impl Plan {
    /// The plan for dimension `k`, 1 to 255, a field of `q` elements, 2 to 16, and `m` information sets, 1 to
    /// 255.
    pub fn build(alloc: Global, k: usize, q: u64, m: usize) -> Result<Plan, NoMemory>
        requires dimension { (1 ≤ k) × (k ≤ 255) }
        requires field { (2 ≤ q) × (q ≤ 16) }
        requires sets { (1 ≤ m) × (m ≤ 255) }
        ensures { IfOk result (λ p. p ≡ record { k = k; q = q; m = m }) }
    {
        let size = Size { k, q, m };
        let chooses = size.chooses(alloc)?;
        let powers = size.powers(alloc)?;
        let counts = size.counts(alloc, &chooses, &powers)?;
        let starts = size.starts(alloc, &counts)?;
        Ok(Plan {
            size,
            chooses,
            powers,
            counts,
            starts,
        })
    }

    /// How many blocks the plan has: the end of its last phase, at most 2^40.
    #[tactic(auto, using(crate::proofs::Phases::total_is, crate::proofs::Phases::total_few))]
    pub fn total(&self) -> u64
        ensures exact { result ≡ total self.now.k self.now.q self.now.m }
        ensures few { result ≤ 2 ^ 40 }
    {
        self.starts[self.size.k]
    }

    /// The phase of a block below the total.
    pub fn phase_of(&self, block: u64) -> Phase
        requires { block < total self.now.k self.now.q self.now.m }
        ensures found { (p : ℕ) × IsInPhase self.now.k self.now.q self.now.m p block
            × (plan_phase result ≡ phase_at self.now.k self.now.q self.now.m p) }
        ensures only { (p : ℕ) → IsInPhase self.now.k self.now.q self.now.m p block →
            plan_phase result ≡ phase_at self.now.k self.now.q self.now.m p }
        ensures level { (1 ≤ result.level) × (result.level ≤ self.now.k) }
        ensures set { result.set < self.now.m }
        ensures around { (result.start ≤ block) × (block < result.end) }
    {
        self.size
            .phase(self.starts.as_slice(), self.counts.as_slice(), block)
    }

    /// The end of the phase of a block below the total: the block after its last one, at most 2^40.
    pub fn phase_end(&self, block: u64) -> u64
        requires { block < total self.now.k self.now.q self.now.m }
        ensures found { (p : ℕ) × IsInPhase self.now.k self.now.q self.now.m p block
            × (result ≡ (phase_at self.now.k self.now.q self.now.m p).end) }
        ensures only { (p : ℕ) → IsInPhase self.now.k self.now.q self.now.m p block →
            result ≡ (phase_at self.now.k self.now.q self.now.m p).end }
        ensures after { block < result }
    {
        self.phase_of(block).end
    }

    /// How many messages a block below the total has: 4,096, or in the last block of a phase what is left of
    /// the level, at least 1.
    pub fn block_len(&self, block: u64) -> u64
        requires { block < total self.now.k self.now.q self.now.m }
        ensures exact { (p : ℕ) → IsInPhase self.now.k self.now.q self.now.m p block →
            result ≡ block_length self.now.k self.now.q self.now.m p block }
        ensures some { 1 ≤ result }
        ensures few { result ≤ 4096 }
    {
        let phase = self.phase_of(block);
        let counts = self.counts.as_slice();
        (counts[phase.level - 1] - BLOCK * (block - phase.start)).min(BLOCK)
    }

    /// Puts a spot at the first message of a block below the total, and at its set. The spot's room is at
    /// least k.
    pub fn start_of(&self, block: u64, spot: &mut Spot)
        requires inside { block < total self.now.k self.now.q self.now.m }
        requires room { self.now.k ≤ spot.old.room }
        ensures first { (p : ℕ) → IsInPhase self.now.k self.now.q self.now.m p block →
            slice_get (messages self.now.k self.now.q (phase_level self.now.m p))
            (4096 * (block - blocks_before self.now.k self.now.q self.now.m p)) ≡ Some (spot_message spot.new) }
        ensures level { (p : ℕ) → IsInPhase self.now.k self.now.q self.now.m p block →
            length spot.new.support ≡ phase_level self.now.m p }
        ensures set { (p : ℕ) → IsInPhase self.now.k self.now.q self.now.m p block →
            spot.new.set ≡ phase_set self.now.m p }
        ensures message { Contains (messages self.now.k self.now.q (length spot.new.support)) (spot_message spot.new) }
        ensures room { spot.new.room ≡ spot.old.room }
    {
        let phase = self.phase_of(block);
        let rank = (block - phase.start) * BLOCK;
        self.go_to(phase.set, phase.level, rank, spot);
    }

    /// Puts a spot at the message of a level whose number is `rank`, counted from 0 in the order of the level, and at a set.
    ///
    /// The level is 1 to k and has such a message, `rank` is below 2^52, and the spot's room is at least k. It takes no memory,
    /// and goes to messages beyond the cut too.
    pub fn go_to(&self, set: usize, level: usize, rank: u64, spot: &mut Spot)
        requires level { (1 ≤ level) × (level ≤ self.now.k) }
        requires small { rank < 2 ^ 52 }
        requires inside { rank < message_count self.now.k self.now.q level }
        requires room { self.now.k ≤ spot.old.room }
        ensures at { slice_get (messages self.now.k self.now.q level) rank ≡ Some (spot_message spot.new) }
        ensures level { length spot.new.support ≡ level }
        ensures set { spot.new.set ≡ set }
        ensures room { spot.new.room ≡ spot.old.room }
    {
        let powers = self.powers.as_slice();
        let row = powers[level - 1];
        spot.set = set;
        fill_support(
            self.chooses.as_slice(),
            self.size.k,
            level,
            rank / row,
            &mut spot.support,
        );
        fill_coefficients(
            powers,
            self.size.k,
            self.size.q,
            level,
            rank % row,
            &mut spot.coefficients,
        );
    }

    /// How many messages of a level begin at place 0, counted up to 2^53: they are the first ones of the level. The level is 1
    /// to k.
    #[tactic(auto, using(crate::proofs::Counting::led_is))]
    pub fn led_count(&self, level: usize) -> u64
        requires level { (1 ≤ level) × (level ≤ self.now.k) }
        ensures is { result ≡ min (choose (self.now.k - 1) (level - 1) * (self.now.q - 1) ^ (level - 1)) (2 ^ 53) }
    {
        let row = (self.size.k - 1) * 256;
        self.chooses[row + (level - 1)]
            .saturating_mul(self.powers[level - 1])
            .min(MOST)
    }

    /// Goes to the next message of the level, and answers the least index at which the support or the
    /// coefficients changed. None if the spot was at the last message of its level, and then the spot is
    /// as before. The spot's support and coefficients are a message of this plan.
    pub fn step(&self, spot: &mut Spot) -> Option<usize>
        requires { Contains (messages self.now.k self.now.q (length spot.old.support)) (spot_message spot.old) }
        ensures next { (n : ℕ) → slice_get (messages self.now.k self.now.q (length spot.old.support)) n
            ≡ Some (spot_message spot.old) →
            slice_get (messages self.now.k self.now.q (length spot.old.support)) (n + 1)
            ≡ (if is_some result then Some (spot_message spot.new) else None) }
        ensures change { IfSome result (λ i. IsFirstChange spot.old spot.new i) }
        ensures last { result ≡ None → spot.new ≡ spot.old }
        ensures message { Contains (messages self.now.k self.now.q (length spot.new.support)) (spot_message spot.new) }
        ensures level { length spot.new.support ≡ length spot.old.support }
        ensures set { spot.new.set ≡ spot.old.set }
        ensures room { spot.new.room ≡ spot.old.room }
    {
        let top = (self.size.q - 1) as u8;
        let place = last_below(spot.coefficients.as_slice(), top);
        if place > 0 {
            raise(spot.coefficients.as_mut_slice(), place);
            return Some(place);
        }
        let Some(column) = last_movable(spot.support.as_slice(), self.size.k) else {
            return None;
        };
        move_on(spot.support.as_mut_slice(), column);
        let first = reset(spot.coefficients.as_mut_slice(), top, column);
        Some(first)
    }

    /// Goes to the next message of the level; false if the spot was at the last one, and then the spot is
    /// as before. The spot's support and coefficients are a message of this plan.
    pub fn next(&self, spot: &mut Spot) -> bool
        requires { Contains (messages self.now.k self.now.q (length spot.old.support)) (spot_message spot.old) }
        ensures next { (n : ℕ) → slice_get (messages self.now.k self.now.q (length spot.old.support)) n
            ≡ Some (spot_message spot.old) →
            slice_get (messages self.now.k self.now.q (length spot.old.support)) (n + 1)
            ≡ (if result then Some (spot_message spot.new) else None) }
        ensures last { result ≡ false → spot.new ≡ spot.old }
        ensures message { Contains (messages self.now.k self.now.q (length spot.new.support)) (spot_message spot.new) }
        ensures level { length spot.new.support ≡ length spot.old.support }
        ensures set { spot.new.set ≡ spot.old.set }
        ensures room { spot.new.room ≡ spot.old.room }
    {
        self.step(spot).is_some()
    }

    /// The law of the order: over a phase the blocks list the messages of its level, each once, by support
    /// and then by coefficients, and their vectors are those of length k with as many nonzero entries as the
    /// level says, the first one 1, each once. With `start_of`, which begins at the first message of a block, and `step`,
    /// which goes from each message to the next, the whole phase is listed.
    pub fn lists_each_message_once(&self)
        ensures blocks { (p : ℕ) →
            flat_map (block_messages self.now.k self.now.q self.now.m p)
            (numbers_from (blocks_before self.now.k self.now.q self.now.m p)
            (level_blocks self.now.k self.now.q (phase_level self.now.m p)))
            ≡ messages self.now.k self.now.q (phase_level self.now.m p) }
        ensures places { (p b t : ℕ) → t < 4096 → slice_get (block_messages self.now.k self.now.q self.now.m p b) t
            ≡ slice_get (messages self.now.k self.now.q (phase_level self.now.m p))
            (4096 * (b - blocks_before self.now.k self.now.q self.now.m p) + t) }
        ensures order { (w : ℕ) → AllPairs MessageLess (messages self.now.k self.now.q w) }
        ensures vectors { (w : ℕ) (v : List ℕ) → 1 ≤ w →
            Contains (map (vector_of self.now.k) (messages self.now.k self.now.q w)) v
            ↔ IsLeadingVector self.now.k self.now.q w v }
        ensures once { (w : ℕ) →
            AllPairs (λ u v. u ≢ v) (map (vector_of self.now.k) (messages self.now.k self.now.q w)) }
        ensures count { (w : ℕ) → length (messages self.now.k self.now.q w) ≡ message_count self.now.k self.now.q w }
    {
        let _field = self.size.q;
    }
}

// Proved only where its argument may go to another thread and be shared with it.
fn crosses_threads<T: Send + Sync>(_value: &T) {}

// A plan is `Send` and `Sync`.
fn plan_crosses_threads(plan: &Plan) {
    crosses_threads(plan);
}
