//! The pure machine of a round, which threads do not share.
ghost use Rattle.std.specs.Prelude.{◌≡◌, ◌<◌, ◌≤◌, ◌∷◌, ◌++◌, ◌↔◌, ◌+◌, min, map, true, false, set, length, replicate, [], None, All, IsTrue, IfOk, OnOk, OnErr, IsSome, if◌then◌else◌};
ghost use Rattle.lc_board.specs.declared.round.Mode.TheVariants.{Running, Ended, Stopped};
ghost use Rattle.lc_board.specs.declared.round.Event.TheVariants.{Claim, Report, EndRound, Kill, Resume};
ghost use Rattle.lc_board.specs.Round.{start, actor_at, idle, drew, finished, Possible, moved, NeedsMemory};

use crate::NoMemory;
use std::alloc::Global;
use std::marker::Model;

// The blocks that an actor finished, each with the value that it reported. To a contract it is the list.
#[derive(Drop)]
struct Pairs {
    items: Vec<(u64, u64)>,
}

impl Model for Pairs {
    ghost use Rattle.std.specs.Prelude.{ℕ, List};

    ghost Value = { List (ℕ × ℕ) };

    ghost view = { λ p. p.items.items };
}

impl Pairs {
    fn new(alloc: Global) -> Pairs
        ensures { result ≡ [] }
    {
        Pairs {
            items: Vec::new(alloc),
        }
    }

    fn push(&mut self, block: u64, value: u64) -> Result<(), NoMemory>
        ensures ok { OnOk result (self.new ≡ self.old ++ (block, value) ∷ []) }
        ensures err { OnErr result (self.new ≡ self.old) }
    {
        self.items.push((block, value))?;
        Ok(())
    }

    fn clear(&mut self)
        ensures { self.new ≡ [] }
    {
        self.items.clear();
    }
}

#[derive(Drop)]
struct Actor {
    held: Option<u64>,
    past: bool,
    finished: Pairs,
}

impl Actor {
    fn new(alloc: Global) -> Actor
        ensures { result ≡ idle }
    {
        Actor {
            held: None,
            past: false,
            finished: Pairs::new(alloc),
        }
    }

    fn is_free(&self) -> bool
        ensures { IsTrue result ↔ ((self.now.held ≡ None) × (self.now.past ≡ false)) }
    {
        self.held.is_none() && !self.past
    }

    fn draw(&mut self, count: u64, next: u64)
        ensures { self.new ≡ drew count next self.old }
    {
        if next < count {
            self.held = Some(next);
        } else {
            self.past = true;
        }
    }

    // Whether it held a block.
    fn finish(&mut self, value: u64) -> Result<bool, NoMemory>
        ensures ok { IfOk result (λ done. (IsTrue done ↔ IsSome self.old.held) × (self.new ≡ finished value self.old)) }
        ensures err { OnErr result (self.new ≡ self.old) }
        ensures held { OnErr result (IsSome self.old.held) }
    {
        let Some(block) = self.held else {
            return Ok(false);
        };
        self.finished.push(block, value)?;
        self.held = None;
        Ok(true)
    }

    fn reset(&mut self)
        ensures { self.new ≡ idle }
    {
        self.held = None;
        self.past = false;
        self.finished.clear();
    }
}

fn nobody_holds(actors: &[Actor]) -> bool
    ensures { IsTrue result ↔ All (λ a. a.held ≡ None) actors.now }
{
    for actor in actors {
        if actor.held.is_some() {
            return false;
        }
    }
    true
}

fn reset_all(actors: &mut Vec<Actor>)
    ensures { actors.new.items ≡ replicate (length actors.old.items) idle }
{
    for i in 0..actors.len() {
        actors[i].reset();
    }
}

#[derive(Clone, Copy)]
enum Mode {
    Running,
    Ended,
    Stopped,
}

impl Mode {
    fn is_running(self) -> bool
        ensures { IsTrue result ↔ (self ≡ Running) }
    {
        matches!(self, Mode::Running)
    }

    fn is_ended(self) -> bool
        ensures { IsTrue result ↔ (self ≡ Ended) }
    {
        matches!(self, Mode::Ended)
    }

    fn is_stopped(self) -> bool
        ensures { IsTrue result ↔ (self ≡ Stopped) }
    {
        matches!(self, Mode::Stopped)
    }
}

/// An event of a round. An actor is named by its number, from 0.
#[derive(Clone, Copy, Debug, PartialEq, Eq)]
pub enum Event {
    /// The actor draws the next number. It holds the block of that number, or is past the blocks.
    Claim(u32),
    /// The actor reports a value for the block that it holds.
    Report(u32, u64),
    /// The round ends. It is possible if all blocks were drawn and nobody holds one.
    EndRound,
    /// The round is broken off.
    Kill,
    /// A round that was broken off begins again from its start.
    Resume,
}

/// A round as a machine that does one event at a time: what the words and the views of a board stand for.
#[derive(Drop)]
pub struct RoundState {
    count: u64,
    first: u64,
    next: u64,
    best: u64,
    mode: Mode,
    actors: Vec<Actor>,
}

impl Model for RoundState {
    ghost use Rattle.lc_board.specs.Round.{Round};
    ghost use Rattle.std.specs.Prelude.{◌≤◌, length};

    ghost Value = { Round };

    ghost use Rattle.lc_board.specs.State.{round_of, IsKept};

    ghost view = { round_of };

    ghost invariant = { IsKept };
}

impl RoundState {
    /// The starting state of a round of `count` blocks, at most 256, for `actors` actors, 1 to 256. `first` is the
    /// best value before any report. Refused only if no memory is left.
    pub fn new(alloc: Global, count: u64, first: u64, actors: u32) -> Result<RoundState, NoMemory>
        requires blocks { count ≤ 256 }
        requires actors { (1 ≤ actors) × (actors ≤ 256) }
        ensures { IfOk result (λ r. r ≡ start count first actors) }
    {
        let mut list = Vec::with_capacity(alloc, actors as usize)?;
        for _ in 0..actors {
            list.push(Actor::new(alloc))?;
        }
        Ok(RoundState {
            count,
            first,
            next: 0,
            best: first,
            mode: Mode::Running,
            actors: list,
        })
    }

    /// Does one event, and answers false exactly if the event isn't possible; then, and if memory ran out,
    /// the state is as before. Only a report that is possible takes memory.
    pub fn step(&mut self, alloc: Global, event: Event) -> Result<bool, NoMemory>
        ensures answer { IfOk result (λ done. IsTrue done ↔ Possible self.old event) }
        ensures state { IfOk result (λ done. self.new ≡ (if done then moved self.old event else self.old)) }
        ensures actors { length self.new.actors ≡ length self.old.actors }
        ensures no_memory { OnErr result (self.new ≡ self.old) }
        ensures needed { OnErr result (NeedsMemory self.old event) }
    {
        let _ = alloc;
        match event {
            Event::Claim(actor) => Ok(self.claim(actor)),
            Event::Report(actor, value) => self.report(actor, value),
            Event::EndRound => Ok(self.end()),
            Event::Kill => Ok(self.kill()),
            Event::Resume => Ok(self.resume()),
        }
    }

    fn claim(&mut self, actor: u32) -> bool
        ensures answer { IsTrue result ↔ Possible self.old (Claim actor) }
        ensures state { self.new ≡ (if result then moved self.old (Claim actor) else self.old) }
    {
        let index = actor as usize;
        if !self.mode.is_running() || index >= self.actors.len() || !self.actors[index].is_free() {
            return false;
        }
        self.actors[index].draw(self.count, self.next);
        self.next += 1;
        true
    }

    fn report(&mut self, actor: u32, value: u64) -> Result<bool, NoMemory>
        ensures answer { IfOk result (λ done. IsTrue done ↔ Possible self.old (Report actor value)) }
        ensures state { IfOk result
            (λ done. self.new ≡ (if done then moved self.old (Report actor value) else self.old)) }
        ensures no_memory { OnErr result (self.new ≡ self.old) }
        ensures needed { OnErr result (Possible self.old (Report actor value)) }
    {
        let index = actor as usize;
        if !self.mode.is_running() || index >= self.actors.len() {
            return Ok(false);
        }
        if !self.actors[index].finish(value)? {
            return Ok(false);
        }
        if value < self.best {
            self.best = value;
        }
        Ok(true)
    }

    fn end(&mut self) -> bool
        ensures answer { IsTrue result ↔ Possible self.old EndRound }
        ensures state { self.new ≡ (if result then moved self.old EndRound else self.old) }
    {
        if !self.mode.is_running() || self.next < self.count || !nobody_holds(&self.actors) {
            return false;
        }
        self.mode = Mode::Ended;
        true
    }

    fn kill(&mut self) -> bool
        ensures answer { IsTrue result ↔ Possible self.old Kill }
        ensures state { self.new ≡ (if result then moved self.old Kill else self.old) }
    {
        if !self.mode.is_running() {
            return false;
        }
        self.mode = Mode::Stopped;
        true
    }

    fn resume(&mut self) -> bool
        ensures answer { IsTrue result ↔ Possible self.old Resume }
        ensures state { self.new ≡ (if result then moved self.old Resume else self.old) }
    {
        if !self.mode.is_stopped() {
            return false;
        }
        self.next = 0;
        self.best = self.first;
        self.mode = Mode::Running;
        reset_all(&mut self.actors);
        true
    }

    /// How many numbers were drawn since the round began.
    pub fn next(&self) -> u64
        ensures { result ≡ self.now.next }
    {
        self.next
    }

    /// The least of the first value and all that were reported since the round began.
    pub fn best(&self) -> u64
        ensures { result ≡ self.now.best }
    {
        self.best
    }

    /// Whether the round has ended.
    pub fn ended(&self) -> bool
        ensures { IsTrue result ↔ (self.now.mode ≡ Ended) }
    {
        self.mode.is_ended()
    }

    /// The block that an actor holds, and None exactly if it holds none. The actor is below the number of actors.
    pub fn held(&self, actor: u32) -> Option<u64>
        requires { actor < length self.now.actors }
        ensures { result ≡ (actor_at self.now actor).held }
    {
        self.actors[actor as usize].held
    }
}
