//! Where a reader stands.
ghost use Rattle.std.specs.Prelude.{◌≡◌, ◌↔◌, length, [], IsTrue, true, false};
ghost use Rattle.hq_expr.specs.Reader as spec;
ghost use Rattle.hq_expr.specs.Reader.{Reads};

use crate::fault::ParseFault;
use crate::lexeme::Lexeme;
use crate::long_text::LongText;
use crate::mark::Mark;
use hq_value::Name;
use std::marker::Model;

/// What the next lexeme is.
#[derive(Clone, Copy, Debug, PartialEq, Eq)]
pub enum Peek {
    End,
    Mark(Mark),
    Name,
    Digits,
    Text,
    Long,
}

/// How a factor or a condition begins.
#[derive(Clone, Copy, Debug)]
pub enum Start {
    Open,
    Minus,
    Not,
    Other,
}

/// How a factor or a condition that begins with this lexeme begins.
#[inline(always)]
pub fn start_of(peek: Peek) -> Start
    ensures { result ≡ spec.start_of peek }
{
    match peek {
        Peek::Mark(Mark::Open) => Start::Open,
        Peek::Mark(Mark::Minus) => Start::Minus,
        Peek::Mark(Mark::Not) => Start::Not,
        _ => Start::Other,
    }
}

#[inline(always)]
fn kind_of(lexeme: &Lexeme) -> Peek
    ensures { result ≡ spec.kind_of lexeme.now }
{
    match lexeme {
        Lexeme::Mark(mark) => Peek::Mark(*mark),
        Lexeme::Name(_) => Peek::Name,
        Lexeme::Digits(_) => Peek::Digits,
        Lexeme::Text(_) => Peek::Text,
        Lexeme::Long => Peek::Long,
    }
}

/// The most operators, signs, NOTs and pairs of parentheses of one expression.
const LIMIT: u16 = 256;

/// The lexemes that are left, and how many operators the expression may still have.
#[derive(Drop)]
pub struct Cursor {
    // The next one is the last, so that it can be taken out.
    rest: Vec<Lexeme>,
    left: u16,
}

impl Model for Cursor {
    ghost use Rattle.std.specs.Prelude.{reverse};
    ghost use Rattle.hq_expr.specs.State.{State};

    ghost Value = { State };

    ghost view = { λ c. record { left = c.left; rest = reverse c.rest.items } };
}

impl Cursor {
    /// At the first lexeme.
    #[tactic(auto, using(crate::proofs::Reversed::reverse_twice))]
    pub fn new(lexemes: Vec<Lexeme>) -> Cursor
        ensures { result ≡ record { left = 256; rest = lexemes.items } }
    {
        let mut rest = lexemes;
        rest.reverse();
        Cursor { rest, left: LIMIT }
    }

    /// Begins an expression, with a new limit.
    pub fn renew(&mut self)
        ensures { self.new ≡ record { left = 256; rest = self.old.rest } }
    {
        self.left = LIMIT;
    }

    /// How many operators the expression may still have.
    pub fn left(&self) -> u16
        ensures { result ≡ self.now.left }
    {
        self.left
    }

    /// How many lexemes are left.
    pub fn count(&self) -> usize
        ensures { result ≡ length self.now.rest }
    {
        self.rest.len()
    }

    /// Whether none is left.
    pub fn is_done(&self) -> bool
        ensures { IsTrue result ↔ (self.now.rest ≡ []) }
    {
        self.rest.is_empty()
    }

    /// What the next lexeme is.
    #[inline(always)]
    pub fn peek(&self) -> Peek
        ensures { result ≡ spec.peek self.now.rest }
    {
        match self.rest.last() {
            None => Peek::End,
            Some(next) => kind_of(next),
        }
    }

    /// Passes the next lexeme.
    #[inline(always)]
    pub fn skip(&mut self)
        ensures { self.new ≡ spec.skipped self.old }
    {
        let _ = self.rest.pop();
    }

    /// One operator more.
    #[inline(always)]
    pub fn spend(&mut self) -> Result<(), ParseFault>
        ensures { Reads (spec.spend self.old) result self.new }
    {
        if self.left == 0 {
            return Err(ParseFault::Syntax);
        }
        self.left -= 1;
        Ok(())
    }

    /// Whether the next lexeme is this word or sign.
    #[inline(always)]
    pub fn sees(&self, mark: Mark) -> bool
        ensures { result ≡ spec.sees mark (spec.peek self.now.rest) }
    {
        match self.peek() {
            Peek::Mark(found) => found == mark,
            _ => false,
        }
    }

    /// Passes this word or sign. Syntax exactly where another lexeme, or none, comes next.
    #[tactic(auto, unfolding(crate::specs::Reader::expect))]
    #[inline(always)]
    pub fn expect(&mut self, mark: Mark) -> Result<(), ParseFault>
        ensures { Reads (spec.expect mark self.old) result self.new }
    {
        if self.sees(mark) {
            self.skip();
            Ok(())
        } else {
            Err(ParseFault::Syntax)
        }
    }

    /// Takes digits. Syntax exactly where none come next.
    #[tactic(auto, unfolding(crate::specs::Reader::digits))]
    #[inline(always)]
    pub fn digits(&mut self) -> Result<u64, ParseFault>
        ensures { Reads (spec.digits self.old) result self.new }
    {
        match self.rest.pop() {
            Some(Lexeme::Digits(n)) => Ok(n),
            _ => Err(ParseFault::Syntax),
        }
    }

    /// Takes a name. Syntax exactly where none comes next.
    #[tactic(auto, unfolding(crate::specs::Reader::name))]
    #[inline(always)]
    pub fn name(&mut self) -> Result<Name, ParseFault>
        ensures { Reads (spec.name self.old) result self.new }
    {
        match self.rest.pop() {
            Some(Lexeme::Name(name)) => Ok(name),
            _ => Err(ParseFault::Syntax),
        }
    }

    /// Takes a text. Syntax exactly where none comes next.
    #[tactic(auto, unfolding(crate::specs::Reader::text))]
    #[inline(always)]
    pub fn text(&mut self) -> Result<LongText, ParseFault>
        ensures { Reads (spec.text self.old) result self.new }
    {
        match self.rest.pop() {
            Some(Lexeme::Text(text)) => Ok(text),
            _ => Err(ParseFault::Syntax),
        }
    }
}
