//! The symbols of a text that are left to be read.
ghost use Rattle.std.specs.Prelude.{◌≡◌, true, length, map};
ghost use Rattle.zf_grammar.specs.Prelude.{is_mark, token_at, Unexpected};
ghost use Rattle.zf_grammar.specs.BoxReading as boxes;
ghost use Rattle.zf_grammar.specs.Reading as spec;
ghost use Rattle.zf_grammar.specs.TermReading as terms;
ghost use Rattle.zf_grammar.specs.{Gives, here};

use std::marker::Model;
use zf_data::arena::Lent;
use zf_scan::{Mark, Next, Placed, TextFault, TextFaultKind};
use zf_tree::{Connective, Listed, Name, Operator, Span};

/// A place in the reduced list of the symbols of a text, which contracts see as the symbols from there on.
#[derive(Drop)]
pub struct Cursor<'a, 'b> {
    text: &'a [u8],
    rest: &'b [Placed],
}

impl<'a, 'b> Model for Cursor<'a, 'b> {
    ghost use Rattle.std.specs.Prelude.{List, map};
    ghost use Rattle.zf_scan.specs.Separators.{Symbol};
    ghost use Rattle.zf_scan.specs.Placing.{token_at};

    ghost Value = { List Symbol };

    ghost view = { λ c. map (token_at c.text.now) c.rest.now };
}

impl<'a, 'b> Cursor<'a, 'b> {
    pub fn new(text: &'a [u8], symbols: &'b [Placed]) -> Cursor<'a, 'b>
        ensures { result ≡ map (token_at text.entry.now) symbols.entry.now }
    {
        Cursor {
            text,
            rest: symbols,
        }
    }

    /// What comes next.
    pub fn peek(&self) -> Next
        ensures { result ≡ spec.first self.now }
    {
        match self.rest {
            [] => Next::End,
            [first, ..] => first.next.seen(),
        }
    }

    /// Goes past the next symbol.
    pub fn skip(&mut self)
        ensures { self.new ≡ spec.rest self.old }
    {
        if let [_, rest @ ..] = self.rest {
            self.rest = rest;
        }
    }

    /// How many symbols are left.
    pub fn left(&self) -> usize
        ensures { result ≡ length self.now }
    {
        self.rest.len()
    }

    /// The place of the next symbol; nowhere where nothing is left.
    pub fn span(&self) -> Span
        ensures { result ≡ here self.now }
    {
        match self.rest {
            [] => Span { start: 0, stop: 0 },
            [first, ..] => first.span,
        }
    }

    /// No rule reads the next symbol here.
    pub fn unexpected(&self) -> TextFault
        ensures { result.kind ≡ Unexpected }
    {
        TextFault {
            kind: TextFaultKind::Unexpected,
            span: self.span(),
        }
    }

    /// Whether one or more names, parted by commas, and a colon come next.
    pub fn begins_decl(&self) -> bool
        ensures { result ≡ terms.begins_decl true self.now }
    {
        let mut ahead = Cursor {
            text: self.text,
            rest: self.rest,
        };
        let mut due = true;
        for _turn in 0..self.left() {
            let next = ahead.peek();
            if !next.goes_on(due) {
                return next.ends_names(due);
            }
            ahead.skip();
            due = !due;
        }
        false
    }

    /// Whether the symbol after the next one shows that declared names come next.
    pub fn declares(&self) -> bool
        ensures { result ≡ boxes.is_declared self.now }
    {
        let mut ahead = Cursor {
            text: self.text,
            rest: self.rest,
        };
        ahead.skip();
        ahead.is_at(Mark::Comma) || ahead.is_at(Mark::Colon)
    }

    /// Whether `\land` comes next.
    pub fn is_and(&self) -> bool
        ensures { result ≡ boxes.is_and (spec.first self.now) }
    {
        matches!(self.peek(), Next::Connective(Connective::And))
    }

    /// Whether `\lor` comes next.
    pub fn is_or(&self) -> bool
        ensures { result ≡ boxes.is_or (spec.first self.now) }
    {
        matches!(self.peek(), Next::Connective(Connective::Or))
    }

    /// Whether this symbol comes next.
    pub fn is_at(&self, mark: Mark) -> bool
        ensures { result ≡ is_mark mark (spec.first self.now) }
    {
        self.peek().is(mark)
    }

    /// Whether nothing is left.
    pub fn is_done(&self) -> bool
        ensures { result ≡ spec.is_end (spec.first self.now) }
    {
        matches!(self.peek(), Next::End)
    }

    /// Goes past this symbol, and says where it stands.
    pub fn expect(&mut self, mark: Mark) -> Result<Span, TextFault>
        ensures { Gives (spec.expect mark self.old) result self.new }
    {
        if !self.is_at(mark) {
            return Err(self.unexpected());
        }
        let span = self.span();
        self.skip();
        Ok(span)
    }

    /// Goes past the symbol between two operands; of application there is none.
    pub fn go_beyond(&mut self, op: Operator)
        ensures { self.new ≡ terms.beyond op self.old }
    {
        if !matches!(op, Operator::Application) {
            self.skip();
        }
    }

    /// Goes past what stands after two operands, of which the last is given: where the whole ends.
    pub fn end(&mut self, op: Operator, last: Span) -> Result<Span, TextFault>
        ensures { Gives (terms.ended_by op last self.old) result self.new }
    {
        match op {
            Operator::Image => self.expect(Mark::CloseImage),
            _ => Ok(last),
        }
    }

    /// Goes past what stands after the terms of a list, of which the last is given: where the whole ends.
    pub fn close(&mut self, form: Listed, last: Span) -> Result<Span, TextFault>
        ensures { Gives (terms.closed_by form last self.old) result self.new }
    {
        match form {
            Listed::Tuple => self.expect(Mark::CloseRound),
            Listed::Display => self.expect(Mark::CloseBrace),
            Listed::Product => Ok(last),
        }
    }

    /// A name, whose bytes the text lends.
    pub fn name(&mut self) -> Result<Name<'a>, TextFault>
        ensures { Gives (spec.read_name self.old) result self.new }
    {
        match self.rest {
            [first, rest @ ..] if matches!(first.next, Next::Name) => {
                let name = Name {
                    spelled: Lent::new(first.spelled(self.text)),
                    bare: first.amount,
                    span: first.span,
                };
                self.rest = rest;
                Ok(name)
            }
            _ => Err(self.unexpected()),
        }
    }

    /// A number.
    pub fn number(&mut self) -> Result<u64, TextFault>
        ensures { Gives (spec.read_number self.old) result self.new }
    {
        match self.rest {
            [first, rest @ ..] if matches!(first.next, Next::Number) => {
                self.rest = rest;
                Ok(first.amount as u64)
            }
            _ => Err(self.unexpected()),
        }
    }

    /// The opening of a schema box: its name.
    pub fn opening(&mut self) -> Result<Name<'a>, TextFault>
        ensures { Gives (spec.read_opening self.old) result self.new }
    {
        match self.rest {
            [first, rest @ ..] if matches!(first.next, Next::BeginSchema) => {
                let opened = first.opened(self.text);
                let name = Name {
                    spelled: Lent::new(opened),
                    bare: opened.len(),
                    span: first.span,
                };
                self.rest = rest;
                Ok(name)
            }
            _ => Err(self.unexpected()),
        }
    }
}
