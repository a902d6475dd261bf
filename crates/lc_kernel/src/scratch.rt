//! The memory that the kernel works in.

ghost use Rattle.std.specs.Prelude.{◌≡◌, ◌<◌, [], true, length, IfOk};
ghost use Rattle.std.specs.Arc.{arc_value};
ghost use Rattle.lc_algebra.specs.declared.FieldName.TheVariants.{Gf2};
ghost use Rattle.lc_kernel.specs.Tables.{AreTables, AreAllTables};
ghost use Rattle.lc_kernel.specs.Grids.{AreGrids, AreAllGrids};
ghost use Rattle.lc_kernel.specs.Sums.{AreMultiples};
ghost use Rattle.lc_enumeration.specs.Search.{set_count};

use crate::grid::{Grid, grid_of};
use crate::room::Room;
use crate::stack::Stack;
use crate::table::{Table, table_of};
use lc_field::NoMemory;
use lc_infoset::Sets;
use lc_vec::Word;
use std::alloc::Global;
use std::marker::Model;
use std::sync::Arc;

/// What `least` works in: made once for the sets of a code, and used for block after block. Each worker
/// has its own; they share the tables.
///
/// Contracts see it as the code of the sets.
#[derive(Drop)]
pub struct Scratch {
    pub(crate) stack: Stack,
    // over 2 elements the tables of the sets; none over other fields
    pub(crate) tables: Arc<Vec<Table>>,
    // over more than 2 elements the tables of the sets, if there is room for them; none over 2 elements
    pub(crate) grids: Arc<Vec<Grid>>,
    pub(crate) room: Room,
}

impl Model for Scratch {
    ghost use Rattle.std.specs.Prelude.{◌<◌, length};
    ghost use Rattle.std.specs.Arc.{arc_value};
    ghost use Rattle.lc_algebra.specs.Matrix.{Matrix};
    ghost use Rattle.lc_kernel.specs.Tables.{AreTables, AreAllTables};
    ghost use Rattle.lc_kernel.specs.Grids.{AreGrids, AreAllGrids};
    ghost use Rattle.lc_kernel.specs.Room.{IsWorkRoom, IsGridRoom};

    ghost Value = { Matrix };

    ghost view = { λ s. s.stack.code };

    ghost invariant = { λ s. AreTables s.stack.code (arc_value s.tables).items × AreGrids s.stack.code (arc_value s.grids).items × IsWorkRoom (length s.stack.code.rows) s.room × (0 < length (arc_value s.grids).items → IsGridRoom (length s.stack.code.rows) s.room) × AreAllTables s.stack.code (arc_value s.tables).items × AreAllGrids s.stack.code (arc_value s.grids).items };
}

impl Scratch {
    /// The memory for blocks of these sets.
    pub fn new(alloc: Global, sets: &Sets) -> Result<Scratch, NoMemory>
        ensures code { IfOk result (λ s. s ≡ sets.now) }
    {
        let stack = Stack::new(alloc, sets)?;
        let Ok(tables) = Arc::new(alloc, tables_of(alloc, sets)?) else {
            return Err(NoMemory);
        };
        let made = grids_of(alloc, sets, stack.multiples())?;
        let has_grids = !made.is_empty();
        let Ok(grids) = Arc::new(alloc, made) else {
            return Err(NoMemory);
        };
        Scratch::of(alloc, stack, tables, grids, has_grids)
    }

    /// Memory for blocks of the same sets, for another worker. It shares the tables.
    pub fn another(&self, alloc: Global) -> Result<Scratch, NoMemory>
        ensures code { IfOk result (λ s. s ≡ self.now) }
    {
        let Ok(tables) = Arc::try_clone(&self.tables) else {
            return Err(NoMemory);
        };
        let Ok(grids) = Arc::try_clone(&self.grids) else {
            return Err(NoMemory);
        };
        let has_grids = !self.room.tops.is_empty();
        Scratch::of(alloc, self.stack.another(alloc)?, tables, grids, has_grids)
    }

    // The memory with a stack and tables for its sets. What only grids need is left out if there are none.
    fn of(
        alloc: Global,
        stack: Stack,
        tables: Arc<Vec<Table>>,
        grids: Arc<Vec<Grid>>,
        has_grids: bool,
    ) -> Result<Scratch, NoMemory>
        requires tables { AreTables stack.code (arc_value tables).items }
        requires grids { AreGrids stack.code (arc_value grids).items }
        requires all_tables { AreAllTables stack.code (arc_value tables).items }
        requires all_grids { AreAllGrids stack.code (arc_value grids).items }
        requires has_grids { 0 < length (arc_value grids).items → has_grids ≡ true }
        ensures code { IfOk result (λ s. s ≡ stack.code) }
    {
        let room = Room::new(alloc, stack.dimension(), has_grids)?;
        Ok(Scratch {
            stack,
            tables,
            grids,
            room,
        })
    }
}

// The tables of the sets, over 2 elements.
#[tactic(auto, using(crate::proofs::TableCounts::all_tables_laws))]
fn tables_of(alloc: Global, sets: &Sets) -> Result<Vec<Table>, NoMemory>
    ensures are { IfOk result (λ ts. AreTables sets.now ts.items) }
    ensures all { IfOk result (λ ts. AreAllTables sets.now ts.items) }
{
    let mut tables = Vec::new(alloc);
    if sets.field().size() == 2 {
        push_tables(alloc, sets, &mut tables)?;
    }
    Ok(tables)
}

// Pushes the tables of the sets.
#[tactic(auto, using(crate::proofs::TableLaws::no_tables))]
fn push_tables(alloc: Global, sets: &Sets, tables: &mut Vec<Table>) -> Result<(), NoMemory>
    requires field { sets.now.field ≡ Gf2 }
    requires none { tables.old.items ≡ [] }
    ensures are { IfOk result (λ _. AreTables sets.now tables.new.items) }
    ensures all { IfOk result (λ _. length tables.new.items ≡ set_count sets.now) }
{
    for j in 0..sets.count() {
        tables.push(table_of(alloc, sets, j)?)?;
    }
    Ok(())
}

// The tables of the sets, over more than 2 elements.
#[tactic(auto, using(crate::proofs::TableCounts::grids_of_laws))]
fn grids_of(alloc: Global, sets: &Sets, multiples: &[Word]) -> Result<Vec<Grid>, NoMemory>
    requires multiples { AreMultiples sets.now multiples.now }
    ensures are { IfOk result (λ gs. AreGrids sets.now gs.items) }
    ensures all { IfOk result (λ gs. AreAllGrids sets.now gs.items) }
{
    let mut grids = Vec::new(alloc);
    if sets.field().size() != 2 {
        push_grids(alloc, sets, multiples, &mut grids)?;
    }
    Ok(grids)
}

// Pushes the tables of the sets, if there is room for them.
#[tactic(auto, using(crate::proofs::TableCounts::push_grids_laws))]
fn push_grids(
    alloc: Global,
    sets: &Sets,
    multiples: &[Word],
    grids: &mut Vec<Grid>,
) -> Result<(), NoMemory>
    requires multiples { AreMultiples sets.now multiples.now }
    requires none { grids.old.items ≡ [] }
    ensures are { IfOk result (λ _. AreGrids sets.now grids.new.items) }
    ensures all { IfOk result (λ _. AreAllGrids sets.now grids.new.items) }
{
    for j in 0..sets.count() {
        let Some(grid) = grid_of(alloc, sets, multiples, j)? else {
            return Ok(());
        };
        grids.push(grid)?;
    }
    Ok(())
}

// Proved only where its argument may go to another thread.
fn moves_to_a_thread<T: Send>(_value: &T) {}

// A scratch is `Send`.
fn scratch_moves_to_a_thread(scratch: &Scratch) {
    moves_to_a_thread(scratch);
}

// So is a stack.
fn stack_moves_to_a_thread(stack: &Stack) {
    moves_to_a_thread(stack);
}
