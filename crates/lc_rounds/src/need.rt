//! The answer of one need of a session.
ghost use Rattle.std.specs.Prelude.{◌≡◌, ◌+◌, ◌^◌, ◌<◌, ◌≤◌, List, [], ◌∷◌, ◌++◌, length, take, None, true, false, is_some, nat_lt, ◌==◌, ◌&&◌, Some, IfOk, MatchResult};
ghost use Rattle.lc_algebra.specs.Matrix.{Matrix};
ghost use Rattle.lc_algebra.specs.Divisor.{divisor_of};
ghost use Rattle.lc_enumeration.specs.Search as enumeration;
ghost use Rattle.lc_enumeration.specs.Search.{fits};
ghost use Rattle.lc_enumeration.specs.Records.{found_of};
ghost use Rattle.lc_checkpoint.specs.Seen.{settled_of};
ghost use Rattle.lc_search.specs.State.{SearchState, answer_in, answer_of};
ghost use Rattle.lc_rounds.specs.Way.{Around};
ghost use Rattle.lc_rounds.specs.Surroundings.{seen, seen_after};
ghost use Rattle.lc_rounds.specs.Paces.{IsSame};
ghost use Rattle.lc_rounds.specs.Going.{World, IsRanged, Goes, IsNext, Halts};

use crate::course::Course;
use crate::records::{Answered, begun, passed};
use crate::rounds::{Stop, search_need};
use crate::surroundings::Surroundings;
use lc_checkpoint::Settled;
use lc_code::Code;
use lc_crew::Crew;
use lc_io::{Gate, Vault, Watcher};
use lc_search::Answer;
use std::alloc::Global;
use std::thread::Threads;

/// Why a session ends before its script does.
#[derive(Clone, Copy, Debug, PartialEq, Eq)]
pub enum Halt {
    /// It stops among the rounds of a search.
    Stop(Stop),
    /// A record of its checkpoint doesn't fit, or there are more records than needs. No round was done.
    Unfit {
        /// The weight that the record tells; or how many records there are.
        told: u64,
        /// The weight of the word at the record's place, 0 if there is none; or 0.
        found: u64,
    },
}

// Whether the records from here on aren't used: the checkpoint is of version 1, and the code has a divisor above 1.
fn begins_anew(course: &Course, code: &Code) -> bool
    ensures { result ≡ (is_some course.now.current && ((course.now.version == 1) && nat_lt 1 (divisor_of code.now))) }
{
    course.current.is_some() && course.version == 1 && code.divisor() > 1
}

// Leaves out the records from the need on that is met next.
fn cut(course: &mut Course)
    requires ranged { IsRanged course.old }
    ensures ranged { IsRanged course.new }
    ensures long { length course.new.pace.point.settled.items ≡ course.old.met }
    ensures cut { course.new.pace.point.settled.items ≡ take course.old.met course.old.pace.point.settled.items }
    ensures none { course.new.current ≡ None }
    ensures met { course.new.met ≡ course.old.met }
    ensures version { course.new.pace.point.version ≡ course.old.pace.point.version }
    ensures same { IsSame course.old.pace course.new.pace }
{
    course.pace.point.settled.truncate(course.met as usize);
    course.current = None;
}

// How far a search is that has this answer.
#[tactic(auto, using(crate::proofs::NeedLaws::record_of_laws))]
fn record_of(answer: Answer) -> Settled
    ensures { (s : SearchState) → answer_in s ≡ Some (answer_of answer) → settled_of result ≡ s.progress }
{
    match answer {
        Answer::Exact {
            weight,
            place,
            blocks,
        } => Settled {
            blocks,
            weight,
            place,
        },
        Answer::Bracket {
            weight,
            place,
            blocks,
            ..
        } => Settled {
            blocks,
            weight,
            place,
        },
    }
}

// Passes over a settled need.
fn pass_over(alloc: Global, course: &mut Course, code: &Code) -> Result<Answered, Halt>
    requires rows { 0 < length code.now.rows }
    requires ranged { IsRanged course.old }
    requires settled { course.old.met < length course.old.pace.point.settled.items }
    ensures goes { (w : World) (needs : List Matrix) (answers : List enumeration.Answer) (now : Around) →
        IsNext w needs code.now answers course.old now →
        MatchResult result (λ x. Goes w (needs ++ code.now ∷ []) (answers ++ answer_of x.answer ∷ []) course.new now)
        (λ halt. Halts w needs code.now course.new now halt) }
    ensures answered { IfOk result (λ x. (x.search.code ≡ code.now) × (answer_in x.search ≡ Some (answer_of x.answer))
        × (fits x.search.code x.search.progress.blocks (found_of x.search.progress) ≡ true)) }
    ensures ranged { IfOk result (λ _. IsRanged course.new) }
    ensures same { IfOk result (λ _. course.new.met ≡ course.old.met + 1) }
{
    let kept = course.pace.point.settled[course.met as usize];
    let answered = match passed(alloc, code, course.pace.point.budget, kept) {
        Ok(answered) => answered,
        Err(halt) => return Err(halt),
    };
    let _rows = answered.search.sets().dimension();
    course.met += 1;
    Ok(answered)
}

// Searches for the answer of a need that isn't settled.
#[tactic(auto, using(crate::proofs::RecordLaws::current_within))]
fn search_on<R: Threads + Sync, V: Vault, W: Watcher, G: Gate + Sync>(
    crew: &Crew<'_, R, G>,
    surroundings: Surroundings<'_, V, W>,
    course: &mut Course,
    code: &Code,
) -> Result<Answered, Halt>
    requires rows { 0 < length code.now.rows }
    requires ranged { IsRanged course.old }
    requires few { course.old.met < 70000 }
    requires settled { length course.old.pace.point.settled.items ≡ course.old.met }
    ensures goes { (w : World) (needs : List Matrix) (answers : List enumeration.Answer) →
        IsNext w needs code.now answers course.old (seen V.Vault W.Watcher surroundings.entry) →
        MatchResult result (λ x. Goes w (needs ++ code.now ∷ []) (answers ++ answer_of x.answer ∷ []) course.new
        (seen_after V.Vault W.Watcher surroundings.exit))
        (λ halt. Halts w needs code.now course.new (seen_after V.Vault W.Watcher surroundings.exit) halt) }
    ensures answered { IfOk result (λ x. (x.search.code ≡ code.now) × (answer_in x.search ≡ Some (answer_of x.answer))
        × (fits x.search.code x.search.progress.blocks (found_of x.search.progress) ≡ true)) }
    ensures ranged { IfOk result (λ _. IsRanged course.new) }
    ensures same { IfOk result (λ _. course.new.met ≡ course.old.met + 1) }
{
    let mut search = match begun(crew.alloc, code, course.pace.point.budget, course.current) {
        Ok(search) => search,
        Err(halt) => return Err(halt),
    };
    let answer = match search_need(crew, surroundings, &mut course.pace, &mut search) {
        Ok(answer) => answer,
        Err(stop) => return Err(Halt::Stop(stop)),
    };
    if course.pace.point.settled.push(record_of(answer)).is_err() {
        return Err(Halt::Stop(Stop::NoMemory));
    }
    let whole = search.sets();
    let _rows = whole.dimension();
    let _long = whole.length();
    course.current = None;
    course.met += 1;
    Ok(Answered { search, answer })
}

/// Answers the next need of a session: by the record of a checkpoint, if it has one there, else by its search.
///
/// The code has dimension at least 1, and fewer than 70,000 needs were met.
pub fn answer_need<R: Threads + Sync, V: Vault, W: Watcher, G: Gate + Sync>(
    crew: &Crew<'_, R, G>,
    surroundings: Surroundings<'_, V, W>,
    course: &mut Course,
    code: &Code,
) -> Result<Answered, Halt>
    requires rows { 0 < length code.now.rows }
    requires ranged { IsRanged course.old }
    requires few { course.old.met < 70000 }
    ensures goes { (w : World) (needs : List Matrix) (answers : List enumeration.Answer) →
        Goes w needs answers course.old (seen V.Vault W.Watcher surroundings.entry) →
        MatchResult result (λ x. Goes w (needs ++ code.now ∷ []) (answers ++ answer_of x.answer ∷ []) course.new
        (seen_after V.Vault W.Watcher surroundings.exit))
        (λ halt. Halts w needs code.now course.new (seen_after V.Vault W.Watcher surroundings.exit) halt) }
    ensures answered { IfOk result (λ x. (x.search.code ≡ code.now) × (answer_in x.search ≡ Some (answer_of x.answer))
        × (fits x.search.code x.search.progress.blocks (found_of x.search.progress) ≡ true)) }
    ensures ranged { IfOk result (λ _. IsRanged course.new) }
    ensures same { IfOk result (λ _. course.new.met ≡ course.old.met + 1) }
{
    if begins_anew(course, code) {
        cut(course);
        return search_on(crew, surroundings, course, code);
    }
    if (course.met as usize) < course.pace.point.settled.len() {
        return pass_over(crew.alloc, course, code);
    }
    search_on(crew, surroundings, course, code)
}
