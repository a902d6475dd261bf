//! What a script has made and may need again.
ghost use Rattle.std.specs.Prelude.{◌≡◌, ◌≢◌, ◌↔◌, ℕ, None, Some, IfOk, IfSome, IsTrue};
ghost use Rattle.std.proofs.Props.{props};
ghost use Rattle.std.specs.Result.{IsErrOf};
ghost use Rattle.lc_algebra.specs.declared.FieldName.{FieldName};
ghost use Rattle.lc_algebra.specs.Field.{size};
ghost use Rattle.lc_algebra.specs.Word.{IsWord};
ghost use Rattle.lc_constructions.specs.Coset.{too_many_cosets};
ghost use Rattle.lc_constructions.specs.Nearest.{IsNearest};
ghost use Rattle.lc_field.specs.declared.refusal.FieldRefusal.TheVariants as refusal;
ghost use Rattle.lc_syndrome.specs.declared.refusal.SyndromeRefusal.TheVariants as cosets;

use lc_code::Code;
use lc_field::{Field, FieldRefusal, NoMemory};
use lc_syndrome::{Leaders, SyndromeRefusal};
use std::alloc::Global;
use std::rc::Rc;

/// What a script has made and may need again: its fields, each made once, and the coset leaders of the code that it decoded
/// with last.
#[derive(Drop)]
pub(crate) struct Stock {
    fields: Vec<Rc<Field>>,
    leaders: Option<Leaders>,
    ghost few: { IfSome leaders (λ l. too_many_cosets l ≡ None) } by { Prim.hlevel props },
}

impl Stock {
    /// Nothing is made.
    pub(crate) fn new(alloc: Global) -> Stock {
        Stock {
            fields: Vec::new(alloc),
            leaders: None,
        }
    }

    /// The field of `q` elements; `NotAField` exactly if there is none.
    pub(crate) fn field(&mut self, alloc: Global, q: u64) -> Result<Rc<Field>, FieldRefusal>
        ensures size { IfOk result (λ f. size f.value ≡ q) }
        ensures refused { IsErrOf result refusal.NotAField ↔ ((f : FieldName) → size f ≢ q) }
    {
        for field in &self.fields {
            if u64::from(field.size()) == q {
                return Ok(shared(field)?);
            }
        }
        let field = in_memory(alloc, Field::of(alloc, q)?)?;
        self.keep(&field)?;
        Ok(field)
    }

    // Keeps a field.
    fn keep(&mut self, field: &Rc<Field>) -> Result<(), NoMemory> {
        self.fields.push(shared(field)?)?;
        Ok(())
    }

    /// The word of the code that is nearest to `word`: `word` less the leader of its coset. `word` has the code's length and
    /// symbols of its field.
    ///
    /// The leaders are built if those that are kept are of another code. `TooManyCosets` only if there are more than 2^20.
    pub(crate) fn nearest(
        &mut self,
        alloc: Global,
        code: &Code,
        word: &[u8],
    ) -> Result<Vec<u8>, SyndromeRefusal>
        requires word { IsWord code.now.field code.now.columns word.now }
        ensures few { IfOk result (λ _. too_many_cosets code.now ≡ None) }
        ensures nearest { IfOk result (λ near. IsNearest code.now word.now near.items) }
        ensures refused { (n : ℕ) → IsErrOf result (cosets.TooManyCosets n) → too_many_cosets code.now ≡ Some n }
    {
        let leaders = leaders_of(alloc, self.leaders.take(), code)?;
        let near = word_near(alloc, &leaders, word);
        self.leaders = Some(leaders);
        Ok(near?)
    }
}

// The word of the code of these leaders that is nearest to `word`.
fn word_near(alloc: Global, leaders: &Leaders, word: &[u8]) -> Result<Vec<u8>, NoMemory>
    requires word { IsWord leaders.now.field leaders.now.columns word.now }
    ensures { IfOk result (λ near. IsNearest leaders.now word.now near.items) }
{
    let mut near = word.to_vec(alloc)?;
    leaders.nearest(word, &mut near);
    Ok(near)
}

// Whether two codes are one: the same field, length and rows.
fn is_same(a: &Code, b: &Code) -> bool
    ensures { IsTrue result → a.now ≡ b.now }
{
    if a.field().size() != b.field().size() {
        return false;
    }
    if a.length() != b.length() {
        return false;
    }
    if a.dimension() != b.dimension() {
        return false;
    }
    for i in 0..a.dimension() {
        if a.row(i) != b.row(i) {
            return false;
        }
    }
    true
}

// The leaders of a code, which are built.
fn built(alloc: Global, code: &Code) -> Result<Leaders, SyndromeRefusal>
    ensures code { IfOk result (λ l. l ≡ code.now) }
    ensures few { IfOk result (λ _. too_many_cosets code.now ≡ None) }
    ensures refused { (n : ℕ) → IsErrOf result (cosets.TooManyCosets n) → too_many_cosets code.now ≡ Some n }
{
    Leaders::build(alloc, code)
}

// The leaders of a code: those that are kept, if they are of this code.
fn leaders_of(alloc: Global, kept: Option<Leaders>, code: &Code) -> Result<Leaders, SyndromeRefusal>
    requires kept { IfSome kept (λ l. too_many_cosets l ≡ None) }
    ensures code { IfOk result (λ l. l ≡ code.now) }
    ensures few { IfOk result (λ _. too_many_cosets code.now ≡ None) }
    ensures refused { (n : ℕ) → IsErrOf result (cosets.TooManyCosets n) → too_many_cosets code.now ≡ Some n }
{
    if let Some(leaders) = kept {
        if is_same(leaders.code(), code) {
            return Ok(leaders);
        }
    }
    built(alloc, code)
}

// The same field.
fn shared(field: &Rc<Field>) -> Result<Rc<Field>, NoMemory>
    ensures { IfOk result (λ f. f.value ≡ field.now.value) }
{
    Ok(field.clone()?)
}

// The field with an owner.
fn in_memory(alloc: Global, field: Field) -> Result<Rc<Field>, NoMemory>
    ensures { IfOk result (λ f. f.value ≡ field) }
{
    Ok(Rc::new(alloc, field)?)
}
