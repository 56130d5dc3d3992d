//! Reading one token.

ghost use Rattle.std.specs.Prelude.{◌≡◌, ◌+◌, ◌≤◌, ℕ, length, option_map, map, OnOk};
ghost use Rattle.rule_reader.specs.Words.{seen, State, head, behind, noted, begun, at_start};
ghost use Rattle.rule_reader.specs.Reading.{Gives, judged, mark_fit, name_fit, number_fit, whole_fit, variable_fit, variable_of, mark_at, name_at, number_at, index_at, quality_at, text_at, variable_at, opens, is_at, is_at_number};

use crate::fault::{Fault, Stop};
use crate::numbers::rule_number;
use crate::tokens::Token;
use std::alloc::{AllocError, Global};
use std::marker::Model;
use word_scan::whole;

/// Which points an index may name.
#[derive(Clone, Copy)]
pub enum Bound {
    /// Point 1, as the first mapped line begins there.
    First,
    /// Point 2, as the first mapped line ends there.
    Second,
    /// A mapped point.
    Mapped,
    /// A mapped or a new point.
    Any,
}

/// An index that was read: how many words were left there, its value, and what it may name.
#[derive(Clone, Copy)]
pub struct Use {
    pub left: usize,
    pub index: u32,
    pub bound: Bound,
}

/// What a token is where a certain one is needed.
#[derive(Clone, Copy)]
pub enum Fit<T> {
    Fits(T),
    Unfit,
    /// A number that isn't of the kind and range that are needed.
    NoNumber,
}

/// A place in a text: the tokens that are left, the indices that the rule has used, and the number
/// of the rule.
#[derive(Drop)]
pub struct Reader<'a> {
    tokens: &'a [Token<'a>],
    uses: Vec<Use>,
    rule: u64,
}

impl<'a> Model for Reader<'a> {
    ghost use Rattle.std.specs.Prelude.{map};
    ghost use Rattle.rule_reader.specs.Words.{State, seen};

    ghost Value = { State };

    ghost view = { λ r. record { left = map seen r.tokens.now; uses = r.uses.items; rule = r.rule } };
}

/// Whether a token is this mark.
fn mark_fit(token: Option<Token<'_>>, mark: u8) -> Fit<()>
    ensures { result ≡ mark_fit mark (option_map seen token.entry) }
{
    match token {
        Some(Token::Mark(found)) if found == mark => Fit::Fits(()),
        _ => Fit::Unfit,
    }
}

/// Whether a token is this name.
fn name_fit(token: Option<Token<'_>>, name: &[u8]) -> Fit<()>
    ensures { result ≡ name_fit name.now (option_map seen token.entry) }
{
    match token {
        Some(Token::Name(found)) if found == name => Fit::Fits(()),
        _ => Fit::Unfit,
    }
}

/// The number of a token, in units of 1/10,000, whose size is at most the greatest.
fn number_fit(token: Option<Token<'_>>, greatest: u64) -> Fit<i32>
    requires { greatest ≤ 10000000 }
    ensures { result ≡ number_fit greatest (option_map seen token.entry) }
{
    match token {
        Some(Token::Number(bytes)) => match rule_number(bytes, greatest) {
            Some(number) => Fit::Fits(number),
            None => Fit::NoNumber,
        },
        _ => Fit::Unfit,
    }
}

/// The whole number of a token, at most the greatest.
fn whole_fit(token: Option<Token<'_>>, greatest: u64) -> Fit<u32>
    requires { greatest ≤ 9999 }
    ensures { result ≡ whole_fit greatest (option_map seen token.entry) }
{
    match token {
        Some(Token::Number(bytes)) => match whole(bytes, greatest) {
            Some(number) => Fit::Fits(number as u32),
            None => Fit::NoNumber,
        },
        _ => Fit::Unfit,
    }
}

/// Whether a variable's name is of y, and its index where it has one.
fn variable_of(name: &[u8]) -> Fit<(bool, Option<u32>)>
    ensures { result ≡ variable_of name.now }
{
    match name {
        [b'X'] => Fit::Fits((false, None)),
        [b'Y'] => Fit::Fits((true, None)),
        [letter @ (b'X' | b'Y'), digits @ ..] => match whole(digits, 9_999) {
            Some(index) => Fit::Fits((*letter == b'Y', Some(index as u32))),
            None => Fit::Unfit,
        },
        _ => Fit::Unfit,
    }
}

/// Whether a variable is of y, and its index where its name has one.
fn variable_fit(token: Option<Token<'_>>) -> Fit<(bool, Option<u32>)>
    ensures { result ≡ variable_fit (option_map seen token.entry) }
{
    match token {
        Some(Token::Name(name)) => variable_of(name),
        _ => Fit::Unfit,
    }
}

impl<'a> Reader<'a> {
    /// A reader at the front of these tokens.
    pub fn new(alloc: Global, tokens: &'a [Token<'a>]) -> Self
        ensures { result ≡ at_start (map seen tokens.now) }
    {
        Reader {
            tokens,
            uses: Vec::new(alloc),
            rule: 0,
        }
    }

    /// Begins the rule of this number.
    pub fn begin(&mut self, rule: u64)
        ensures { self.new ≡ begun rule self.old }
    {
        self.uses.clear();
        self.rule = rule;
    }

    /// How many tokens are left.
    pub fn left(&self) -> usize
        ensures { result ≡ length self.now.left }
    {
        self.tokens.len()
    }

    /// The number of the rule that is being read.
    pub fn rule(&self) -> u64
        ensures { result ≡ self.now.rule }
    {
        self.rule
    }

    /// The indices that this rule has used, in their order.
    pub fn uses(&self) -> &[Use]
        ensures { result.now ≡ self.now.uses }
    {
        &self.uses
    }

    /// The token that comes next.
    pub fn first(&self) -> Option<Token<'a>>
        ensures { option_map seen result ≡ head self.now.left }
    {
        match self.tokens {
            [] => None,
            [first, ..] => Some(*first),
        }
    }

    /// Passes the token that comes next.
    fn advance(&mut self)
        ensures { self.new ≡ behind self.old }
    {
        if let [_, rest @ ..] = self.tokens {
            self.tokens = rest;
        }
    }

    /// Keeps the use of an index that stands here.
    fn note(&mut self, left: usize, index: u32, bound: Bound) -> Result<(), AllocError>
        ensures { OnOk result (self.new ≡ noted bound index left self.old) }
    {
        self.uses.push(Use { left, index, bound })?;
        Ok(())
    }

    /// The fault of the token that comes next where it doesn't fit.
    pub fn syntax(&self) -> Stop
        ensures { result ≡ Stop.Fault (Fault.Syntax (length self.now.left)) }
    {
        Stop::Fault(Fault::Syntax { left: self.left() })
    }

    /// Takes the token that comes next if it fits.
    pub fn take<T>(&mut self, fit: Fit<T>) -> Result<T, Stop>
        ensures { Gives (λ x. x) result self.new (judged fit self.old) }
    {
        match fit {
            Fit::Fits(value) => {
                self.advance();
                Ok(value)
            }
            Fit::Unfit => Err(Stop::Fault(Fault::Syntax { left: self.left() })),
            Fit::NoNumber => Err(Stop::Fault(Fault::Number { left: self.left() })),
        }
    }

    /// Whether this mark comes next.
    pub fn opens(&self, mark: u8) -> bool
        ensures { result ≡ opens mark self.now }
    {
        matches!(mark_fit(self.first(), mark), Fit::Fits(()))
    }

    /// Whether this name comes next.
    pub fn is_at(&self, name: &[u8]) -> bool
        ensures { result ≡ is_at name.now self.now }
    {
        matches!(name_fit(self.first(), name), Fit::Fits(()))
    }

    /// Whether a number comes next.
    pub fn is_at_number(&self) -> bool
        ensures { result ≡ is_at_number self.now }
    {
        matches!(self.first(), Some(Token::Number(_)))
    }

    /// This mark, and no other; Syntax where it doesn't come next.
    #[tactic(auto, unfolding(crate::specs::Reading::mark_at))]
    pub fn mark(&mut self, mark: u8) -> Result<(), Stop>
        ensures { Gives (λ x. x) result self.new (mark_at mark self.old) }
    {
        let fit = mark_fit(self.first(), mark);
        self.take(fit)
    }

    /// This name, and no other; Syntax where it doesn't come next.
    #[tactic(auto, unfolding(crate::specs::Reading::name_at))]
    pub fn name(&mut self, name: &[u8]) -> Result<(), Stop>
        ensures { Gives (λ x. x) result self.new (name_at name.now self.old) }
    {
        let fit = name_fit(self.first(), name);
        self.take(fit)
    }

    /// A number in units of 1/10,000 whose size is at most the greatest.
    #[tactic(auto, unfolding(crate::specs::Reading::number_at))]
    pub fn number(&mut self, greatest: u64) -> Result<i32, Stop>
        requires { greatest ≤ 10000000 }
        ensures { Gives (λ x. x) result self.new (number_at greatest self.old) }
    {
        let fit = number_fit(self.first(), greatest);
        self.take(fit)
    }

    /// A quality, from 0 to 1,000; Number where another number comes next, else Syntax.
    #[tactic(auto, unfolding(crate::specs::Reading::quality_at))]
    pub fn quality(&mut self) -> Result<u32, Stop>
        ensures { Gives (λ x. x) result self.new (quality_at self.old) }
    {
        let fit = whole_fit(self.first(), 1_000);
        self.take(fit)
    }

    /// An index, which may name what the bound says.
    #[tactic(auto, unfolding(crate::specs::Reading::index_at))]
    pub fn index(&mut self, bound: Bound) -> Result<u32, Stop>
        ensures { Gives (λ x. x) result self.new (index_at bound self.old) }
    {
        let left = self.left();
        let fit = whole_fit(self.first(), 9_999);
        let index = self.take(fit)?;
        self.note(left, index, bound)?;
        Ok(index)
    }

    /// A text, without its quotation marks.
    #[tactic(auto, unfolding(crate::specs::Reading::text_at))]
    pub fn text(&mut self) -> Result<&'a [u8], Stop>
        ensures { Gives (λ x. x.now) result self.new (text_at self.old) }
    {
        match self.first() {
            Some(Token::Text(bytes)) => {
                self.advance();
                Ok(bytes)
            }
            _ => Err(self.syntax()),
        }
    }

    /// A variable: whether it is of y, and of which mapped point.
    #[tactic(auto, unfolding(crate::specs::Reading::variable_at))]
    pub fn variable(&mut self) -> Result<(bool, u32), Stop>
        ensures { Gives (λ x. x) result self.new (variable_at self.old) }
    {
        let left = self.left();
        let fit = variable_fit(self.first());
        let (of_y, index) = self.take(fit)?;
        match index {
            None => Ok((of_y, self.index(Bound::Mapped)?)),
            Some(point) => {
                self.note(left, point, Bound::Mapped)?;
                Ok((of_y, point))
            }
        }
    }
}
