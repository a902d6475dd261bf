//! What the watchers are told after a round.
ghost use Rattle.std.specs.Prelude.{map};
ghost use Rattle.lc_io.specs.Watchers.{Hears, Tells, hearing};
ghost use Rattle.lc_search.specs.Telling.{AsksInTurn, IsAskedBy};

use lc_io::{Advice, Record, Watcher};

// Asks each item once, in turn, about a record. One of which the answer is Leave is dropped at once and taken from the list; the
// others keep their order. Returns whether the answer was Pause for some. Takes no memory.
fn ask_each<T: Drop, F: FnMut(&mut T, &Record) -> Advice>(
    items: &mut Vec<T>,
    note: &Record,
    mut ask: F,
) -> bool
    requires { F.IsAlwaysCallable ask }
    ensures asked { AsksInTurn
        (IsAskedBy (λ f item about advice left after. F.step f item about advice left after) note.now)
        ask items.old.items items.new.items result }
{
    let mut paused = false;
    let mut next = 0;
    while next < items.len() {
        match ask(&mut items[next], note) {
            Advice::Go => next += 1,
            Advice::Pause => {
                paused = true;
                next += 1;
            }
            Advice::Leave => drop(items.remove(next)),
        }
    }
    paused
}

/// Tells the record to each watcher in turn. A watcher that answers Leave is dropped at once and taken from the list; the
/// others keep their order. Returns whether some watcher answered Pause. Takes no memory.
pub fn tell<W: Watcher>(watchers: &mut Vec<W>, note: &Record) -> bool
    ensures told { Tells note.now
        (map (hearing W.heard W.coming W.pauses) watchers.old.items)
        (map (hearing W.heard W.coming W.pauses) watchers.new.items)
        result }
{
    ask_each(
        watchers,
        note,
        |watcher: &mut W, note: &Record|
            ensures told { Hears note.now (hearing W.heard W.coming W.pauses watcher.old) result
                (hearing W.heard W.coming W.pauses watcher.new) }
        { watcher.told(note) },
    )
}
