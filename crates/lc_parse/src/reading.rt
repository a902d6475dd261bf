ghost use Rattle.std.specs.Prelude.{◌≡◌, ◌≢◌, map, ◌+◌, ◌<◌, ◌≤◌, ◌++◌, ◌∷◌, ◌&&◌, [], Err, List, None, nat_le, length, option_map, string_bytes, ℕ, IfOk, IfErr, IsOk, MatchOption};
ghost use Rattle.lc_grammar.specs.declared.TokenKind.TheVariants.{Name, Number, Open};
ghost use Rattle.lc_grammar.specs.Token.{text_of, number_of, scan, script_end};
ghost use Rattle.lc_grammar.specs.Tree as trees;
ghost use Rattle.lc_grammar.specs.Grammar.{deepest, opens, Reads, Fault, IsFault, TokenFault};
ghost use Rattle.lc_grammar.proofs.Course.{State, start, want, opened, done, named, Around, Bracket, statement, depth_of, level_of, closing, filled, move_by, stops, ended_at, IsNoTarget, course, read};
ghost use Rattle.lc_parse.specs.Refusal.{IsRefusedAs, IsReadAs, IsFaultAs};
ghost use Rattle.lc_parse.specs.Views.{tree_of, trees_of, statement_of, script_of};
ghost use Rattle.lc_parse.specs.Reading.{IsWithin, AreWithin, IsNotFirst, IsBehind, IsTooDeepFirst, IsTargetFirst, IsTokenRefusal, Stays, IsStuck, IsNotStart, IsOutcome, Refuses, ending_of};

use crate::refusal::ParseRefusal;
use crate::scan::{Ending, scan, value_of};
use crate::tree::{Expr, Node, Script, Statement};
use lc_grammar::{Token, TokenKind};
use std::alloc::Global;

// How deep parentheses and brackets may nest.
const DEEPEST: usize = 32;

// What the tokens are those of, and how they end.
#[derive(Clone, Copy)]
struct Source<'a> {
    alloc: Global,
    bytes: &'a [u8],
    ending: Ending,
}

fn opens(kind: TokenKind) -> bool
    ensures { result ≡ opens kind }
{
    match kind {
        TokenKind::Open | TokenKind::OpenList => true,
        _ => false,
    }
}

// The rest after a token of this kind, if one comes first.
fn behind<'a>(kind: TokenKind, tokens: &'a [Token]) -> Option<&'a [Token]>
    ensures { MatchOption result (IsNotFirst kind tokens.now) (λ rest. IsBehind kind tokens.now rest.now) }
{
    let (first, rest) = tokens.split_first()?;
    if first.kind == kind { Some(rest) } else { None }
}

// The number of the fault of a token that the grammar doesn't allow there.
fn refused_number(kind: TokenKind, depth: usize) -> u8
    ensures { move_by (opens kind && nat_le deepest depth) None ≡ stops result }
{
    if opens(kind) && depth >= DEEPEST {
        42
    } else {
        41
    }
}

// The refusal if the grammar doesn't allow the first token, or the end of the script.
fn refusal(source: &Source<'_>, tokens: &[Token], depth: usize) -> ParseRefusal
    ensures is { (s : State) → level_of s ≡ depth → IsStuck source.now.bytes.now s tokens.now
        → Refuses source.now.bytes.now source.now.ending s tokens.now result }
    ensures told { result ≢ ParseRefusal.NoMemory }
{
    match tokens.split_first() {
        None => end_refusal(source.ending),
        Some((token, _)) => {
            let number = refused_number(token.kind, depth);
            ParseRefusal::Fault {
                number,
                offset: token.start,
            }
        }
    }
}

// The refusal at the end of the tokens, if the script can't end.
fn end_refusal(ending: Ending) -> ParseRefusal
    ensures is { (s : State) → IsNotStart s → IsOutcome result (ended_at s (ending_of ending)) }
    ensures told { result ≢ ParseRefusal.NoMemory }
{
    match ending {
        Ending::ScriptEnd(offset) => ParseRefusal::Fault { number: 41, offset },
        Ending::BadToken(offset) => ParseRefusal::Fault { number: 40, offset },
        Ending::TooWide(offset) => ParseRefusal::Fault { number: 43, offset },
    }
}

// The text of a name.
fn name_of(source: &Source<'_>, token: &Token) -> Result<String, ParseRefusal>
    requires within { IsWithin source.now.bytes.now token.now }
    requires name { token.now.kind ≡ Name }
    ensures text { IfOk result (λ x. string_bytes x ≡ text_of source.now.bytes.now token.now) }
    ensures refused { IfErr result (λ e. e ≡ ParseRefusal.NoMemory) }
{
    Ok(String::from_utf8_lossy(source.alloc, &source.bytes[token.start..token.end])?)
}

// The value of a number.
fn number_of(source: &Source<'_>, token: &Token) -> u64
    requires within { IsWithin source.now.bytes.now token.now }
    requires number { token.now.kind ≡ Number }
    ensures { result ≡ number_of (text_of source.now.bytes.now token.now) }
{
    value_of(&source.bytes[token.start..token.end]).unwrap_or(0)
}

// The expression that comes first, and the rest after it.
#[cycle(expression)]
fn expression<'a>(
    source: &Source<'_>,
    tokens: &'a [Token],
    depth: usize,
) -> Result<(Expr, &'a [Token]), ParseRefusal>
    requires within { AreWithin source.now.bytes.now tokens.now }
    ensures read { IfOk result (λ r. (a : Around) → depth_of a ≡ depth
        → Stays source.now.bytes.now source.now.ending (want a) tokens.now (done a (tree_of r.0)) r.1.now) }
    ensures refused { IfErr result (λ e. (a : Around) → depth_of a ≡ depth
        → Refuses source.now.bytes.now source.now.ending (want a) tokens.now e) }
    ensures rest { IfOk result (λ r. AreWithin source.now.bytes.now r.1.now) }
    ensures shorter { IfOk result (λ r. length r.1.now < length tokens.now) }
{
    let Some((first, rest)) = tokens.split_first() else {
        return Err(refusal(source, tokens, depth));
    };
    match first.kind {
        TokenKind::Name => named_expression(source, first, rest, depth),
        TokenKind::Number => {
            let n = number_of(source, first);
            Ok((
                Expr {
                    offset: first.start,
                    node: Node::Number(n),
                },
                rest,
            ))
        }
        TokenKind::OpenList => {
            if depth >= DEEPEST {
                return Err(ParseRefusal::Fault {
                    number: 42,
                    offset: first.start,
                });
            }
            let (elements, rest) = expressions(source, rest, TokenKind::CloseList, depth + 1)?;
            Ok((
                Expr {
                    offset: first.start,
                    node: Node::List(elements),
                },
                rest,
            ))
        }
        _ => Err(refusal(source, tokens, depth)),
    }
}

// The rest after a parenthesis that opens, if one comes first.
fn opening(tokens: &[Token], depth: usize) -> Result<Option<&[Token]>, ParseRefusal>
    ensures read { IfOk result
        (λ o. MatchOption o (IsNotFirst Open tokens.now)
        (λ rest. IsBehind Open tokens.now rest.now × (depth < deepest))) }
    ensures refused { IfErr result (λ e. IsTooDeepFirst tokens.now depth e) }
{
    match tokens.split_first() {
        Some((first, rest)) if first.kind == TokenKind::Open => {
            if depth >= DEEPEST {
                return Err(ParseRefusal::Fault {
                    number: 42,
                    offset: first.start,
                });
            }
            Ok(Some(rest))
        }
        _ => Ok(None),
    }
}

// The expression that begins with a name, the rest after the name.
#[cycle(expression)]
fn named_expression<'a>(
    source: &Source<'_>,
    first: &Token,
    tokens: &'a [Token],
    depth: usize,
) -> Result<(Expr, &'a [Token]), ParseRefusal>
    requires first { IsWithin source.now.bytes.now first.now }
    requires name { first.now.kind ≡ Name }
    requires within { AreWithin source.now.bytes.now tokens.now }
    ensures read { IfOk result (λ r. (a : Around) → depth_of a ≡ depth
        → Stays source.now.bytes.now source.now.ending
        (named a first.now.start (text_of source.now.bytes.now first.now)) tokens.now (done a (tree_of r.0)) r.1.now) }
    ensures refused { IfErr result (λ e. (a : Around) → depth_of a ≡ depth
        → Refuses source.now.bytes.now source.now.ending
        (named a first.now.start (text_of source.now.bytes.now first.now)) tokens.now e) }
    ensures rest { IfOk result (λ r. AreWithin source.now.bytes.now r.1.now) }
    ensures shorter { IfOk result (λ r. length r.1.now ≤ length tokens.now) }
{
    let offset = first.start;
    let name = name_of(source, first)?;
    match opening(tokens, depth)? {
        None => Ok((
            Expr {
                offset,
                node: Node::Name(name),
            },
            tokens,
        )),
        Some(rest) => {
            let (arguments, rest) = expressions(source, rest, TokenKind::Close, depth + 1)?;
            Ok((
                Expr {
                    offset,
                    node: Node::Call(name, arguments),
                },
                rest,
            ))
        }
    }
}

// The expressions up to the closing sign, with commas between them, and the rest after the sign.
#[cycle(expression)]
fn expressions<'a>(
    source: &Source<'_>,
    tokens: &'a [Token],
    closer: TokenKind,
    depth: usize,
) -> Result<(Vec<Expr>, &'a [Token]), ParseRefusal>
    requires { AreWithin source.now.bytes.now tokens.now }
    ensures read { IfOk result (λ r. (b : Bracket) (a : Around) → closing b ≡ closer → depth_of a + 1 ≡ depth
        → Stays source.now.bytes.now source.now.ending (opened b a) tokens.now
        (done a (filled b (trees_of r.0.items))) r.1.now) }
    ensures refused { IfErr result (λ e. (b : Bracket) (a : Around) → closing b ≡ closer → depth_of a + 1 ≡ depth
        → Refuses source.now.bytes.now source.now.ending (opened b a) tokens.now e) }
    ensures rest { IfOk result (λ r. AreWithin source.now.bytes.now r.1.now) }
    ensures shorter { IfOk result (λ r. length r.1.now ≤ length tokens.now) }
{
    let mut found = Vec::new(source.alloc);
    if let Some(rest) = behind(closer, tokens) {
        return Ok((found, rest));
    }
    let mut left = tokens;
    loop {
        let (item, after) = expression(source, left, depth)?;
        found.push(item)?;
        if let Some(rest) = behind(closer, after) {
            return Ok((found, rest));
        }
        match behind(TokenKind::Comma, after) {
            Some(rest) => left = rest,
            None => return Err(refusal(source, after, depth)),
        }
    }
}

// The name and the rest after `:=`, if they come first.
fn assigned(tokens: &[Token]) -> Option<(&Token, &[Token])>
    ensures { MatchOption result (IsNoTarget tokens.now) (λ r. IsTargetFirst tokens.now r.0.now r.1.now) }
{
    let (first, rest) = tokens.split_first()?;
    if first.kind == TokenKind::Name {
        let behind = behind(TokenKind::Assign, rest)?;
        Some((first, behind))
    } else {
        None
    }
}

// The name that a statement assigns to, if it has one, and the rest after `:=`.
fn target<'a>(
    source: &Source<'_>,
    tokens: &'a [Token],
) -> Result<(Option<String>, &'a [Token]), ParseRefusal>
    requires some { 0 < length tokens.now }
    requires within { AreWithin source.now.bytes.now tokens.now }
    ensures read { IfOk result (λ r. (ss : List trees.Statement)
        → Stays source.now.bytes.now source.now.ending (start ss) tokens.now
        (want (statement ss (option_map string_bytes r.0))) r.1.now) }
    ensures refused { IfErr result (λ e. e ≡ ParseRefusal.NoMemory) }
    ensures rest { IfOk result (λ r. AreWithin source.now.bytes.now r.1.now) }
    ensures shorter { IfOk result (λ r. length r.1.now ≤ length tokens.now) }
{
    match assigned(tokens) {
        None => Ok((None, tokens)),
        Some((first, rest)) => Ok((Some(name_of(source, first)?), rest)),
    }
}

// The statement that comes first, and the rest after it.
fn statement_first<'a>(
    source: &Source<'_>,
    tokens: &'a [Token],
) -> Result<(Statement, &'a [Token]), ParseRefusal>
    requires some { 0 < length tokens.now }
    requires within { AreWithin source.now.bytes.now tokens.now }
    ensures read { IfOk result (λ r. (ss : List trees.Statement)
        → Stays source.now.bytes.now source.now.ending (start ss) tokens.now
        (start (ss ++ statement_of r.0 ∷ [])) r.1.now) }
    ensures refused { IfErr result (λ e. (ss : List trees.Statement)
        → Refuses source.now.bytes.now source.now.ending (start ss) tokens.now e) }
    ensures rest { IfOk result (λ r. AreWithin source.now.bytes.now r.1.now) }
    ensures shorter { IfOk result (λ r. length r.1.now < length tokens.now) }
{
    let (target, rest) = target(source, tokens)?;
    let (expr, after) = expression(source, rest, 0)?;
    match behind(TokenKind::End, after) {
        Some(rest) => Ok((Statement { target, expr }, rest)),
        None => Err(refusal(source, after, 0)),
    }
}

// The refusal of a bad token or of a number that is too wide, if the tokens end at one.
fn token_refusal(ending: Ending) -> Option<ParseRefusal>
    ensures { IsTokenRefusal ending result }
{
    match ending {
        Ending::ScriptEnd(_) => None,
        Ending::BadToken(offset) => Some(ParseRefusal::Fault { number: 40, offset }),
        Ending::TooWide(offset) => Some(ParseRefusal::Fault { number: 43, offset }),
    }
}

// The statements of all the tokens.
fn statements(source: &Source<'_>, tokens: &[Token]) -> Result<Vec<Statement>, ParseRefusal>
    requires { AreWithin source.now.bytes.now tokens.now }
    ensures read { IfOk result
        (λ v. course source.now.bytes.now deepest (start []) tokens.now (ending_of source.now.ending)
        ≡ read (map statement_of v.items)) }
    ensures refused { IfErr result (λ e. Refuses source.now.bytes.now source.now.ending (start []) tokens.now e) }
    ensures nothing { (offset : ℕ) → ending_of source.now.ending ≡ script_end offset → tokens.now ≡ [] → IsOk result }
    ensures blank { tokens.now ≡ [] → result ≢ Err ParseRefusal.NoMemory }
{
    let mut found = Vec::new(source.alloc);
    let mut left = tokens;
    while !left.is_empty() {
        let (statement, rest) = statement_first(source, left)?;
        found.push(statement)?;
        left = rest;
    }
    match token_refusal(source.ending) {
        None => Ok(found),
        Some(refusal) => Err(refusal),
    }
}

/// The tokens of a script, in order: the kind of each, the offset of its first byte and the offset after its
/// last one, so that its text is `bytes[start..end]`. Spaces, tabs, carriage returns, newlines and comments
/// from `#` to before the next newline separate tokens. Refuses with the number 40 a byte that begins
/// no token, with 43 a number above 2^64 - 1, whichever comes first, and if memory runs out, which bytes
/// that hold no token never do.
pub fn tokens(alloc: Global, bytes: &[u8]) -> Result<Vec<Token>, ParseRefusal>
    // What it returns are the script's tokens, up to its end.
    ensures read { IfOk result
        (λ v. ((scan bytes.now).ending ≡ script_end (length bytes.now)) × (v.items ≡ (scan bytes.now).tokens)) }
    // It returns them if the tokens go up to the end, unless memory runs out.
    ensures readable { (scan bytes.now).ending ≡ script_end (length bytes.now) →
        IsReadAs result (λ v. v.items ≡ (scan bytes.now).tokens) }

    ensures fault { IfErr result (λ e. IsRefusedAs e (TokenFault (scan bytes.now).ending)) }
    ensures faulty { (f : Fault) → TokenFault (scan bytes.now).ending f → IsFaultAs result f }
    // No bytes have no tokens, for which no memory is asked.
    ensures nothing { bytes.now ≡ [] → IsOk result }
    // Nor is it for others that hold no token.
    ensures blank { (scan bytes.now).tokens ≡ [] → result ≢ Err ParseRefusal.NoMemory }
{
    let (tokens, ending) = scan(alloc, bytes)?;
    match token_refusal(ending) {
        None => Ok(tokens),
        Some(refusal) => Err(refusal),
    }
}

/// The script that the bytes are: its statements with their trees, and the offset of each expression. The bytes
/// may be any. If they are no script it refuses with the number of the fault and the first offset at which
/// they can't go on: 40 at a byte that begins no token, 43 at a number above 2^64 - 1, 42 at the parenthesis or
/// bracket that would be the 33rd open one, 41 at a token that the grammar doesn't allow there, or at the
/// script's length if its end isn't allowed. It refuses if memory runs out, which bytes that hold no token
/// never do.
pub fn parse(alloc: Global, bytes: &[u8]) -> Result<Script, ParseRefusal>
    // What it returns is a script that the bytes are.
    ensures read { IfOk result (λ s. Reads bytes.now (script_of s)) }
    // It returns the script that the bytes are, unless memory runs out.
    ensures readable { (ss : List trees.Statement) → Reads bytes.now ss → IsReadAs result (λ s. script_of s ≡ ss) }

    // A fault that it returns is that of the bytes.
    ensures fault { IfErr result (λ e. IsRefusedAs e (IsFault bytes.now)) }
    // It returns the fault of the bytes, unless memory runs out.
    ensures faulty { (f : Fault) → IsFault bytes.now f → IsFaultAs result f }
    // No bytes are the script of no statements, for which no memory is asked.
    ensures nothing { bytes.now ≡ [] → IsOk result }
    // Nor is it for others that hold no token.
    ensures blank { (scan bytes.now).tokens ≡ [] → result ≢ Err ParseRefusal.NoMemory }
{
    let (tokens, ending) = scan(alloc, bytes)?;
    let source = Source {
        alloc,
        bytes,
        ending,
    };
    let statements = statements(&source, &tokens)?;
    Ok(Script { statements })
}
