ghost use Rattle.std.specs.Prelude.{◌≡◌, ◌≤◌, List, length, IfOk, IfErr, IfSome, MatchOption};
ghost use Rattle.std.specs.Prelude.{MatchResult};
ghost use Rattle.twp_read.specs.TextFaults.{refusal_of, IsFirstTextFault, NamesWhatFollows, Helps};
ghost use Rattle.twp_read.specs.Doubts.{HasNoDoubtfulPlace};
ghost use Rattle.twp_read.specs.steps.BadTokens.{fault_of_bad, HasNoneBad, IsLeftmostBad};
ghost use Rattle.twp_read.specs.steps.Usual.{HasNoneBadBefore};

use crate::doubt::Clarity;
use crate::fault::{TEXT_LIMIT, TextFault};
use crate::items::Items;
use crate::watch::Watch;
use std::alloc::Global;
use std::marker::Model;
use twp_grammar::{Expected, Item, Kind, State, Tokens, first_token};

/// There is room from the start for one item for each of this many bytes: fine aliquot parts take
/// some twenty.
const BYTES_TO_ITEM: usize = 16;

/// There is room for this many items besides, so that a short text needs no more.
const ITEMS_BESIDES: usize = 4;

/// A description of land, as the items that it names, from left to right.
#[derive(Drop)]
pub struct Description {
    items: Vec<Item>,
}

/// A description that was read, and whether a place in its text may be doubtful.
#[derive(Drop)]
pub struct Noted {
    pub description: Description,
    pub clarity: Clarity,
}

impl Model for Description {
    ghost use Rattle.std.specs.Prelude.{List};
    ghost use Rattle.twp_grammar.specs.declared.item.Item.{Item};
    ghost use Rattle.twp_grammar.specs.Items.{BeginWithSections};

    ghost Value = { List Item };

    ghost view = { λ d. d.items.items };

    ghost invariant = { λ d. BeginWithSections d.items.items };
}

impl Description {
    ghost use Rattle.twp_grammar.specs.Items.{BeginWithSections};
    ghost use Rattle.twp_grammar.specs.Sentences.{IsReadAs};

    /// Reads a description by the grammar (the form of the Specifications for Descriptions of Land;
    /// the grammar is this project's). Whether it lies on a plat isn't judged here.
    pub fn read(alloc: Global, text: &[u8]) -> Result<Description, TextFault>
        ensures read { IfOk result (IsReadAs text.now) }
        ensures taken { (items : List Item) → IsReadAs text.now items
            → MatchResult result (λ d. d ≡ items) (λ fault. fault ≡ TextFault.Memory) }
        ensures refused { IfErr result
            (λ fault. IfSome (refusal_of fault) (λ _. IsFirstTextFault text.now fault)) }
        ensures helps { IfErr result (Helps text.now) }
    {
        match Description::read_noting(alloc, text) {
            Ok(noted) => Ok(noted.description),
            Err(fault) => Err(fault),
        }
    }

    /// Reads a description as `read` does, and notes whether a place in it may be doubtful. This takes next
    /// to no time, while `doubts_in` looks at each token again.
    pub fn read_noting(alloc: Global, text: &[u8]) -> Result<Noted, TextFault>
        ensures read { IfOk result (λ noted. IsReadAs text.now noted.description) }
        ensures clear { IfOk result (λ noted.
            noted.clarity ≡ Clarity.Clear → HasNoDoubtfulPlace text.now) }
        ensures taken { (items : List Item) → IsReadAs text.now items
            → MatchResult result (λ noted. noted.description ≡ items)
            (λ fault. fault ≡ TextFault.Memory) }
        ensures refused { IfErr result
            (λ fault. IfSome (refusal_of fault) (λ _. IsFirstTextFault text.now fault)) }
        ensures helps { IfErr result (Helps text.now) }
    {
        if text.len() > TEXT_LIMIT {
            return Err(TextFault::TooLarge);
        }
        Description::read_within(alloc, text)
    }

    /// Reads a description within the limit.
    #[inline(never)]
    fn read_within(alloc: Global, text: &[u8]) -> Result<Noted, TextFault>
        requires { length text.now ≤ TEXT_LIMIT }
        ensures read { IfOk result (λ noted. IsReadAs text.now noted.description) }
        ensures clear { IfOk result (λ noted.
            noted.clarity ≡ Clarity.Clear → HasNoDoubtfulPlace text.now) }
        ensures refused { IfErr result
            (λ fault. IfSome (refusal_of fault) (λ _. IsFirstTextFault text.now fault)) }
        ensures helps { IfErr result (Helps text.now) }
    {
        let mut items = Items::with_room(alloc, text.len() / BYTES_TO_ITEM + ITEMS_BESIDES)?;
        let mut reached = Reached {
            at: 0,
            state: State::Start,
        };
        let mut watch = Watch::begun();
        'tokens: loop {
            reached = items.take_watched(alloc, text, reached, watch)?;
            let Some(token) = first_token(text, reached.at) else {
                break;
            };
            let Some(after) = reached.state.next(token.kind) else {
                return Err(fault_of(text, reached.at, token.at, reached.state.expected()));
            };
            watch = watch.after(reached, &token, after);
            items.take(alloc, reached.state, token.kind, token.at as u32)?;
            reached = Reached {
                at: token.at + token.text.len(),
                state: after,
            };
        }
        if !reached.state.is_final() {
            return Err(fault_of(text, reached.at, text.len(), reached.state.expected()));
        }
        Ok(Noted {
            description: Description {
                items: items.into_vec(),
            },
            clarity: watch.clarity(),
        })
    }

    /// The items, from left to right. Sections come first, or follow the heading.
    pub fn items(&self) -> &[Item]
        ensures items { result.now ≡ self.now }
        ensures sections_first { BeginWithSections self.now }
    {
        &self.items
    }
}

/// The fault of a text that goes wrong at a place, where something else could be: its leftmost
/// bad token, if it has one. What was taken, up to another place, has no bad token.
#[cold]
#[inline(never)]
fn fault_of(text: &[u8], taken: usize, at: usize, expected: Expected) -> TextFault
    requires good { HasNoneBadBefore text.now taken }
    requires within { at ≤ length text.now }
    requires limit { length text.now ≤ TEXT_LIMIT }
    requires wrong { NamesWhatFollows text.now at expected }
    ensures refused { IsFirstTextFault text.now result }
    ensures helps { Helps text.now result }
{
    match first_bad(text, taken) {
        Some(fault) => fault,
        None => TextFault::Syntax {
            at: at as u32,
            expected,
        },
    }
}

/// The leftmost bad token, where none is before a place.
fn first_bad(text: &[u8], taken: usize) -> Option<TextFault>
    requires good { HasNoneBadBefore text.now taken }
    requires limit { length text.now ≤ TEXT_LIMIT }
    ensures { MatchOption result (HasNoneBad text.now) (IsLeftmostBad text.now) }
{
    let mut tokens = Tokens::after(text, taken);
    while let Some(token) = tokens.next() {
        if let Some(fault) = fault_of_bad(token.kind, token.at as u32) {
            return Some(fault);
        }
    }
    None
}

/// The fault that a token is wherever it is.
fn fault_of_bad(kind: Kind, at: u32) -> Option<TextFault>
    ensures { result ≡ fault_of_bad kind at }
{
    match kind {
        Kind::BadByte => Some(TextFault::BadByte { at }),
        Kind::BadNumber => Some(TextFault::BadNumber { at }),
        _ => None,
    }
}

/// A place in a text, and what the tokens before it are the beginning of.
#[derive(Clone, Copy)]
pub struct Reached {
    pub at: usize,
    pub state: State,
}
