//! A stack of sums: the words of the fronts of a message.

ghost use Rattle.std.specs.Prelude.{◌≡◌, ℕ, ◌+◌, ◌-◌, ◌*◌, ◌<◌, ◌≤◌, [], Some, None, length, slice_get, slice_index, is_some, if◌then◌else◌, IfOk, IfSome};
ghost use Rattle.lc_algebra.specs.Word.{weight as weight_of};
ghost use Rattle.lc_enumeration.specs.Message.{messages};
ghost use Rattle.lc_enumeration.specs.Plan.{total, phase_set, phase_level, blocks_before, block_length, IsInPhase};
ghost use Rattle.lc_place.specs.Place.{spot_message, IsFirstChange};
ghost use Rattle.lc_kernel.specs.Kernel.{IsPlanOf, IsStackAt, top_sum};
ghost use Rattle.lc_kernel.specs.Sums.{AreMultiples};
ghost use Rattle.lc_kernel.specs.PlaneSums.{words_of, AreKept, AreZeros};
ghost use Rattle.std.specs.Arc.{arc_value};
ghost use Rattle.lc_kernel.specs.Values.{IsAtOffset};

use crate::multiples::multiples_of;
use crate::sums::Sums;
use lc_field::NoMemory;
use lc_infoset::Sets;
use lc_matrix::Matrix;
use lc_place::{Plan, Spot};
use lc_vec::Word;
use std::alloc::Global;
use std::marker::Model;
use std::sync::Arc;

/// A message, and the words of its fronts: of its first entry, of its first two, and so on. A step to the
/// next message makes only the words again from the first changed entry on. Over 2, 4, 8 and 16 elements it keeps
/// them as planes of bits, beside the nonzero multiples of the rows of all sets as planes, which are made once.
///
/// Contracts see it as the code of the sets that it was made for, its spot, and the list of these words,
/// its sums.
#[derive(Drop)]
pub struct Stack {
    // the code, shared by the stacks for it
    code: Arc<Matrix>,
    spot: Spot,
    sums: Sums,
    // the multiples of the rows of all sets, shared by the stacks for them
    multiples: Arc<Vec<Word>>,
}

impl Model for Stack {
    ghost use Rattle.std.specs.Prelude.{length};
    ghost use Rattle.lc_kernel.specs.Kernel.{StackState};
    ghost use Rattle.lc_kernel.specs.Sums.{IsRoom, AreMultiples, sums_of};
    ghost use Rattle.lc_kernel.specs.PlaneSums.{words_of, AreKept};
    ghost use Rattle.std.specs.Arc.{arc_value};

    ghost Value = { StackState };

    ghost view = { λ s. record { code = arc_value s.code; spot = s.spot; sums = sums_of (length s.spot.support) (words_of s.sums) } };

    ghost invariant = { λ s. IsRoom (arc_value s.code) s.spot (words_of s.sums) × AreMultiples (arc_value s.code) (arc_value s.multiples).items × AreKept (arc_value s.code) s.sums };
}

impl Stack {
    /// A stack for messages of these sets, which is at no message yet. It keeps the nonzero multiples of all rows: at most 508
    /// rows, those of 254 sets for length 255 and dimension 2, with 15 multiples of 128 bytes over 16 elements, 975,360 bytes.
    pub fn new(alloc: Global, sets: &Sets) -> Result<Stack, NoMemory>
        ensures code { IfOk result (λ s. s.code ≡ sets.now) }
        ensures none { IfOk result (λ s. s.sums ≡ []) }
    {
        let multiples = multiples_of(alloc, sets)?;
        let sums = Sums::new(alloc, sets, &multiples)?;
        let Ok(shared) = Arc::new(alloc, multiples) else {
            return Err(NoMemory);
        };
        let Ok(code) = Arc::new(alloc, sets.code().copy(alloc)?) else {
            return Err(NoMemory);
        };
        Stack::of(alloc, code, shared, sums)
    }

    /// A stack for messages of the same sets, which is at no message yet. It shares the code and the multiples of its
    /// rows.
    pub fn another(&self, alloc: Global) -> Result<Stack, NoMemory>
        ensures code { IfOk result (λ s. s.code ≡ self.now.code) }
        ensures none { IfOk result (λ s. s.sums ≡ []) }
    {
        let Ok(multiples) = Arc::try_clone(&self.multiples) else {
            return Err(NoMemory);
        };
        let Ok(code) = Arc::try_clone(&self.code) else {
            return Err(NoMemory);
        };
        let sums = self.sums.another(alloc, &self.code)?;
        Stack::of(alloc, code, multiples, sums)
    }

    // A stack for messages of the sets of a code, which is at no message yet.
    fn of(
        alloc: Global,
        code: Arc<Matrix>,
        multiples: Arc<Vec<Word>>,
        sums: Sums,
    ) -> Result<Stack, NoMemory>
        requires multiples { AreMultiples (arc_value code) (arc_value multiples).items }
        requires kept { AreKept (arc_value code) sums }
        requires zero { AreZeros (arc_value code) (words_of sums) }
        ensures code { IfOk result (λ s. s.code ≡ arc_value code) }
        ensures none { IfOk result (λ s. s.sums ≡ []) }
    {
        let spot = Spot::new(alloc, code.rows())?;
        Ok(Stack {
            code,
            spot,
            sums,
            multiples,
        })
    }

    /// Goes to the first message of a block, and makes all its sums.
    ///
    /// The stack was made for these sets, the plan is one of them, and the block is below its total.
    pub fn start(&mut self, sets: &Sets, plan: &Plan, block: u64)
        requires plan { IsPlanOf plan.now sets.now }
        requires block { block < total plan.now.k plan.now.q plan.now.m }
        requires stack { self.old.code ≡ sets.now }
        ensures at { IsStackAt sets.now plan.now.m self.new }
        ensures first { (p : ℕ) → IsInPhase plan.now.k plan.now.q plan.now.m p block →
            slice_get (messages plan.now.k plan.now.q (phase_level plan.now.m p))
            (4096 * (block - blocks_before plan.now.k plan.now.q plan.now.m p)) ≡ Some (spot_message self.new.spot) }
        ensures level { (p : ℕ) → IsInPhase plan.now.k plan.now.q plan.now.m p block →
            length self.new.spot.support ≡ phase_level plan.now.m p }
        ensures set { (p : ℕ) → IsInPhase plan.now.k plan.now.q plan.now.m p block →
            self.new.spot.set ≡ phase_set plan.now.m p }
    {
        let _phase = plan.phase_of(block);
        let _k = sets.dimension();
        plan.start_of(block, &mut self.spot);
        let level = self.spot.support().len();
        self.sums
            .refresh(sets, &self.multiples, &self.spot, 0, level);
    }

    /// Goes to the next message of the level. Returns how many sums it made again: those from the first
    /// changed entry on. None exactly if there is no next message; then the stack is as before.
    ///
    /// The stack is at a message of these sets and of this plan.
    pub fn advance(&mut self, sets: &Sets, plan: &Plan) -> Option<usize>
        requires plan { IsPlanOf plan.now sets.now }
        requires at { IsStackAt sets.now plan.now.m self.old }
        ensures at { IsStackAt sets.now plan.now.m self.new }
        ensures next { (n : ℕ) → slice_get (messages plan.now.k plan.now.q (length self.old.spot.support)) n
            ≡ Some (spot_message self.old.spot) →
            slice_get (messages plan.now.k plan.now.q (length self.old.spot.support)) (n + 1)
            ≡ (if is_some result then Some (spot_message self.new.spot) else None) }
        ensures again { IfSome result (λ made. (i : ℕ) × IsFirstChange self.old.spot self.new.spot i
            × (made + i ≡ length self.new.spot.support)) }
        ensures last { result ≡ None → self.new ≡ self.old }
        ensures level { length self.new.spot.support ≡ length self.old.spot.support }
        ensures set { self.new.spot.set ≡ self.old.spot.set }
    {
        let _k = sets.dimension();
        let Some(first) = plan.step(&mut self.spot) else {
            return None;
        };
        let level = self.spot.support().len();
        self.sums
            .refresh(sets, &self.multiples, &self.spot, first, level);
        Some(level - first)
    }

    /// The weight of the word of the message. The stack is at a message of its sets.
    pub fn weight(&self) -> usize
        requires at { 0 < length self.now.spot.support }
        ensures is { result ≡ weight_of (top_sum self.now) }
        ensures few { result ≤ self.now.code.columns }
    {
        self.sums.weight(self.spot.support().len())
    }

    /// Symbol `i` of the word of the message, from 0. The stack is at a message of its sets, and `i` is below
    /// their length.
    pub fn symbol(&self, i: usize) -> u8
        requires at { 0 < length self.now.spot.support }
        requires inside { i < self.now.code.columns }
        ensures is { result ≡ slice_index (top_sum self.now) i }
    {
        self.sums.symbol(self.spot.support().len(), i)
    }

    // Goes to the first message of a block.
    pub(crate) fn start_block(&mut self, sets: &Sets, plan: &Plan, block: u64)
        requires plan { IsPlanOf plan.now sets.now }
        requires block { block < total plan.now.k plan.now.q plan.now.m }
        requires stack { self.old.code ≡ sets.now }
        ensures at { IsAtOffset sets.now plan.now.m block 0 self.new }
    {
        self.start(sets, plan, block);
    }

    // Goes from the message before it to the message at an offset of a block.
    pub(crate) fn step_in_block(&mut self, sets: &Sets, plan: &Plan, block: u64, offset: u64)
        requires plan { IsPlanOf plan.now sets.now }
        requires block { block < total plan.now.k plan.now.q plan.now.m }
        requires some { 0 < offset }
        requires inside { (p : ℕ) → IsInPhase plan.now.k plan.now.q plan.now.m p block →
            offset < block_length plan.now.k plan.now.q plan.now.m p block }
        requires at { IsAtOffset sets.now plan.now.m block (offset - 1) self.old }
        ensures at { IsAtOffset sets.now plan.now.m block offset self.new }
    {
        let _made = self.advance(sets, plan);
    }

    // Goes to the message at an offset of a block.
    pub(crate) fn go_to(&mut self, sets: &Sets, plan: &Plan, block: u64, offset: u64)
        requires plan { IsPlanOf plan.now sets.now }
        requires block { block < total plan.now.k plan.now.q plan.now.m }
        requires inside { (p : ℕ) → IsInPhase plan.now.k plan.now.q plan.now.m p block →
            offset < block_length plan.now.k plan.now.q plan.now.m p block }
        requires stack { self.old.code ≡ sets.now }
        ensures at { IsAtOffset sets.now plan.now.m block offset self.new }
    {
        self.start_block(sets, plan, block);
        for done in 0..offset {
            self.step_in_block(sets, plan, block, done + 1);
        }
    }

    /// The multiples of the rows of all sets.
    pub(crate) fn multiples(&self) -> &[Word]
        ensures are { AreMultiples self.now.code result.now }
    {
        &self.multiples
    }

    // The length of the code, and of the word of the message.
    pub(crate) fn length(&self) -> usize
        ensures is { result ≡ self.now.code.columns }
        ensures word { 0 < length self.now.spot.support → length (top_sum self.now) ≡ result }
    {
        let _few = self.spot.support();
        self.code.cols()
    }

    // The dimension of the code.
    pub(crate) fn dimension(&self) -> usize
        ensures is { result ≡ length self.now.code.rows }
    {
        self.code.rows()
    }
}
