//! Reads a file, token by token.

ghost use Rattle.std.specs.Prelude.{◌⊎◌, IfErr, Result, Err, ℕ, ◌≡◌, ◌<◌, ◌≤◌, ◌==◌, List, [], ◌∷◌, ◌++◌, length, Option, Some, None, OnOk, IfOk, Bool, reverse, Ok};
ghost use Rattle.hs_scheme.specs.Tree.{Tree};
ghost use Rattle.hs_reader.specs.declared.raw.RawName.{RawName};
ghost use Rattle.hs_reader.specs.Raw.{Rule, Transition, File};
ghost use Rattle.hs_reader.specs.declared.fault.ReadFault.{ReadFault};
ghost use Rattle.hs_reader.specs.Faults.{IsFileWithin, IsFaultOf, IsAnswer};
ghost use Rattle.hs_reader.specs.Tokens.{dot, left, right};
ghost use Rattle.hs_reader.specs.Reading.{place, tokens};
ghost use Rattle.hs_reader.specs.Building.{TakesToken};
ghost use Rattle.hs_reader.specs.ReadingStages.{start, in_rules, in_head, in_body, between, in_transitions, in_transition, in_children, closed, added, is_full, named, run, read, Goes, GivesName, GivesCased, IsMemory, with_rule, with_transition};

use crate::building::Building;
use crate::cursor::Cursor;
use crate::fault::{ReadFault, Which};
use crate::limits::{MAX_CHILDREN, MAX_DEPTH, MAX_NAME, MAX_TRANSITIONS};
use crate::raw::{RawFile, RawName, RawRule, RawTerm, RawText, RawTransition};
use crate::token::{Token, is_upper};
use hs_scheme::{MAX_PARAMETERS, MAX_RULES};
use std::alloc::Global;

/// A name that isn't too long.
fn short_name(bytes: &[u8], line: u32) -> Result<RawName<'_>, ReadFault>
    ensures { GivesName line bytes.now result }
{
    if bytes.len() > MAX_NAME {
        return Err(ReadFault::Limit { which: Which::Name });
    }
    let text = RawText::of(bytes);
    Ok(RawName { text, line })
}

/// A name that is to be upper, or lower.
fn cased_name(bytes: &[u8], line: u32, upper: bool) -> Result<RawName<'_>, ReadFault>
    ensures { GivesCased upper line bytes.now result }
{
    if is_upper(bytes) != upper {
        return Err(ReadFault::Syntax { line });
    }
    short_name(bytes, line)
}

/// The parameters of a rule, up to its arrow.
fn parameters<'a>(alloc: Global, cursor: &mut Cursor<'a>) -> Result<Vec<RawName<'a>>, ReadFault>
    ensures value { (rs : List Rule) (n : RawName) → Goes
        (λ ps. read (in_body rs n ps.items [] None) cursor.new.line cursor.new.rest.now)
        result (read (in_head rs n []) cursor.old.line cursor.old.rest.now) }
    ensures within { OnOk result (length cursor.new.rest.now ≤ length cursor.old.rest.now) }
{
    let mut params = Vec::new(alloc);
    loop {
        match cursor.next() {
            Token::Name(bytes) => {
                let param = cased_name(bytes, cursor.line, false)?;
                if params.len() == MAX_PARAMETERS {
                    return Err(ReadFault::Limit {
                        which: Which::Parameters,
                    });
                }
                params.push(param)?;
            }
            Token::Arrow => return Ok(params),
            _ => return Err(ReadFault::Syntax { line: cursor.line }),
        }
    }
}

/// Puts a name into the right side that is read.
fn add_name<'a>(building: &mut Building<'a>, bytes: &'a [u8], line: u32) -> Result<(), ReadFault>
    ensures { TakesToken (named line bytes.now) building.old building.new result }
{
    let name = short_name(bytes, line)?;
    if building.is_full() {
        return Err(ReadFault::Limit {
            which: Which::Arguments,
        });
    }
    building.add(name)
}

/// Opens a parenthesis in the right side that is read.
fn open_parenthesis(building: &mut Building) -> Result<(), ReadFault>
    ensures { (line : ℕ) → TakesToken (place line left) building.old building.new result }
{
    if building.depth() == MAX_DEPTH {
        return Err(ReadFault::Limit {
            which: Which::Depth,
        });
    }
    if building.is_full() {
        return Err(ReadFault::Limit {
            which: Which::Arguments,
        });
    }
    building.open()
}

/// Closes a parenthesis in the right side that is read.
fn close_parenthesis(building: &mut Building, line: u32) -> Result<(), ReadFault>
    ensures { TakesToken (place line right) building.old building.new result }
{
    if !building.close() {
        return Err(ReadFault::Syntax { line });
    }
    Ok(())
}

/// Reads the tokens of a right side, up to its dot.
fn up_to_dot<'a>(building: &mut Building<'a>, cursor: &mut Cursor<'a>) -> Result<(), ReadFault>
    ensures value { (rs : List Rule) (n : RawName) (ps : List RawName) → Goes
        (λ _. run (in_body rs n ps building.new.outer building.new.top)
        (place cursor.new.line dot ∷ tokens cursor.new.line cursor.new.rest.now))
        result
        (read (in_body rs n ps building.old.outer building.old.top) cursor.old.line cursor.old.rest.now) }
    ensures within { OnOk result (length cursor.new.rest.now ≤ length cursor.old.rest.now) }
{
    loop {
        match cursor.next() {
            Token::Name(bytes) => add_name(building, bytes, cursor.line)?,
            Token::Left => open_parenthesis(building)?,
            Token::Right => close_parenthesis(building, cursor.line)?,
            Token::Dot => return Ok(()),
            _ => return Err(ReadFault::Syntax { line: cursor.line }),
        }
    }
}

/// The right side of a rule, up to its dot.
fn body<'a>(alloc: Global, cursor: &mut Cursor<'a>) -> Result<RawTerm<'a>, ReadFault>
    ensures value { (rs : List Rule) (n : RawName) (ps : List RawName) → Goes
        (λ t. read (in_rules (with_rule rs n ps t)) cursor.new.line cursor.new.rest.now)
        result (read (in_body rs n ps [] None) cursor.old.line cursor.old.rest.now) }
    ensures within { OnOk result (length cursor.new.rest.now ≤ length cursor.old.rest.now) }
{
    let mut building = Building::new(alloc);
    up_to_dot(&mut building, cursor)?;
    building
        .term()
        .ok_or(ReadFault::Syntax { line: cursor.line })
}

/// A rule behind its name.
fn rule<'a>(
    alloc: Global,
    cursor: &mut Cursor<'a>,
    name: RawName<'a>,
) -> Result<RawRule<'a>, ReadFault>
    ensures value { (rs : List Rule) → Goes
        (λ r. read (in_rules (rs ++ r ∷ [])) cursor.new.line cursor.new.rest.now)
        result (read (in_head rs name.entry []) cursor.old.line cursor.old.rest.now) }
    ensures within { OnOk result (length cursor.new.rest.now ≤ length cursor.old.rest.now) }
{
    let mut params = parameters(alloc, cursor)?;
    params.shrink_to_fit();
    let body = body(alloc, cursor)?;
    Ok(RawRule { name, params, body })
}

/// The rules, up to the marker behind them.
fn rules<'a>(alloc: Global, cursor: &mut Cursor<'a>) -> Result<Vec<RawRule<'a>>, ReadFault>
    ensures { Goes (λ rs. read (between rs.items) cursor.new.line cursor.new.rest.now)
        result (read (in_rules []) cursor.old.line cursor.old.rest.now) }
{
    let mut rules = Vec::new(alloc);
    loop {
        match cursor.next() {
            Token::Name(bytes) => {
                let name = cased_name(bytes, cursor.line, true)?;
                if rules.len() == MAX_RULES {
                    return Err(ReadFault::Limit {
                        which: Which::Rules,
                    });
                }
                rules.push(rule(alloc, cursor, name)?)?;
            }
            Token::RulesEnd => {
                if rules.is_empty() {
                    return Err(ReadFault::Syntax { line: cursor.line });
                }
                return Ok(rules);
            }
            _ => return Err(ReadFault::Syntax { line: cursor.line }),
        }
    }
}

/// The states behind an arrow, up to the dot.
fn children<'a>(alloc: Global, cursor: &mut Cursor<'a>) -> Result<Vec<RawName<'a>>, ReadFault>
    ensures value { (rs : List Rule) (us : List Transition) (q a : RawName) → Goes
        (λ to. read (in_transitions rs (with_transition us q a to.items)) cursor.new.line cursor.new.rest.now)
        result (read (in_children rs us q a []) cursor.old.line cursor.old.rest.now) }
    ensures within { OnOk result (length cursor.new.rest.now ≤ length cursor.old.rest.now) }
{
    let mut to = Vec::new(alloc);
    loop {
        match cursor.next() {
            Token::Name(bytes) => {
                let child = short_name(bytes, cursor.line)?;
                if to.len() == MAX_CHILDREN {
                    return Err(ReadFault::Limit {
                        which: Which::Children,
                    });
                }
                to.push(child)?;
            }
            Token::Dot => return Ok(to),
            _ => return Err(ReadFault::Syntax { line: cursor.line }),
        }
    }
}

/// The terminal of a transition, and the arrow behind it.
fn terminal<'a>(cursor: &mut Cursor<'a>) -> Result<RawName<'a>, ReadFault>
    ensures value { (rs : List Rule) (us : List Transition) (q : RawName) → Goes
        (λ a. read (in_children rs us q a []) cursor.new.line cursor.new.rest.now)
        result (read (in_transition rs us q) cursor.old.line cursor.old.rest.now) }
    ensures within { OnOk result (length cursor.new.rest.now ≤ length cursor.old.rest.now) }
{
    let Token::Name(bytes) = cursor.next() else {
        return Err(ReadFault::Syntax { line: cursor.line });
    };
    let terminal = cased_name(bytes, cursor.line, false)?;
    let Token::Arrow = cursor.next() else {
        return Err(ReadFault::Syntax { line: cursor.line });
    };
    Ok(terminal)
}

/// A transition behind its state.
fn transition<'a>(
    alloc: Global,
    cursor: &mut Cursor<'a>,
    from: RawName<'a>,
) -> Result<RawTransition<'a>, ReadFault>
    ensures value { (rs : List Rule) (us : List Transition) → Goes
        (λ t. read (in_transitions rs (us ++ t ∷ [])) cursor.new.line cursor.new.rest.now)
        result (read (in_transition rs us from.entry) cursor.old.line cursor.old.rest.now) }
    ensures within { OnOk result (length cursor.new.rest.now ≤ length cursor.old.rest.now) }
{
    let terminal = terminal(cursor)?;
    let mut to = children(alloc, cursor)?;
    to.shrink_to_fit();
    Ok(RawTransition { from, terminal, to })
}

/// The transitions, up to the marker behind them.
fn transitions<'a>(
    alloc: Global,
    cursor: &mut Cursor<'a>,
) -> Result<Vec<RawTransition<'a>>, ReadFault>
    ensures { (rs : List Rule) → Goes
        (λ us. read (closed rs us.items) cursor.new.line cursor.new.rest.now)
        result (read (in_transitions rs []) cursor.old.line cursor.old.rest.now) }
{
    let mut transitions = Vec::new(alloc);
    loop {
        match cursor.next() {
            Token::Name(bytes) => {
                let state = short_name(bytes, cursor.line)?;
                if transitions.len() == MAX_TRANSITIONS {
                    return Err(ReadFault::Limit {
                        which: Which::Transitions,
                    });
                }
                transitions.push(transition(alloc, cursor, state)?)?;
            }
            Token::AutomatonEnd => {
                if transitions.is_empty() {
                    return Err(ReadFault::Syntax { line: cursor.line });
                }
                return Ok(transitions);
            }
            _ => return Err(ReadFault::Syntax { line: cursor.line }),
        }
    }
}

/// The file, from its first token to its end.
fn file(alloc: Global, bytes: &[u8]) -> Result<RawFile<'_>, ReadFault>
    requires { length bytes.now ≤ 16777216 }
    ensures { Goes (λ f. Ok f) result (read start 1 bytes.now) }
{
    let mut cursor = Cursor::new(bytes);
    let Token::RulesBegin = cursor.next() else {
        return Err(ReadFault::Syntax { line: cursor.line });
    };
    let rules = rules(alloc, &mut cursor)?;
    let Token::AutomatonBegin = cursor.next() else {
        return Err(ReadFault::Syntax { line: cursor.line });
    };
    let transitions = transitions(alloc, &mut cursor)?;
    let Token::End = cursor.next() else {
        return Err(ReadFault::Syntax { line: cursor.line });
    };
    Ok(RawFile { rules, transitions })
}

/// Reads the bytes of a file, at most 16,777,216, in time and memory in proportion to their number.
///
/// The first token that offends is answered: `Syntax` with its line, counted from 1, where no file
/// begins with the tokens up to it, and else `Limit` with the first limit that it passes, in the
/// order of [`Which`]. `OutOfMemory` may come at any call.
pub fn read_file(alloc: Global, bytes: &[u8]) -> Result<RawFile<'_>, ReadFault>
    requires { length bytes.now ≤ 16777216 }
    ensures file { IfOk result (λ raw. IsFileWithin bytes.now raw) }
    ensures fault { IfErr result (IsFaultOf bytes.now) }
    // There is one answer, and it is given unless memory runs out.
    ensures only { (answer : Result File ReadFault) → IsAnswer bytes.now answer
        → (result ≡ answer) ⊎ (result ≡ Err ReadFault.OutOfMemory) }
{
    file(alloc, bytes)
}
