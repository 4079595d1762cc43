//! Tokens as the symbols of a text.
ghost use Rattle.std.specs.Prelude.{◌≡◌, [], ◌∷◌, ◌++◌, List, IfOk, OnOk};
ghost use Rattle.zf_scan.specs.Laying as spec;
ghost use Rattle.zf_scan.specs.declared.token.Token.{Token};

use crate::next::next_of;
use crate::placed::Placed;
use crate::token::{Kind, Token};
use bumpalo::Bump;
use std::alloc::{AllocError, Global};

/// A text, and its symbols.
#[derive(Drop)]
pub struct Laid<'a> {
    pub text: Vec<u8, &'a Bump>,
    pub symbols: Vec<Placed>,
}

/// What is spelled of the token, so that its text can be read again.
fn spell(text: &mut Vec<u8, &Bump>, kind: &Kind) -> Result<(), AllocError>
    ensures { OnOk result (text.new.items ≡ text.old.items ++ spec.spelling kind.now) }
{
    match kind {
        Kind::BeginSchema(base) => {
            text.extend_from_slice(b"\\begin{schema}{")?;
            text.extend_from_slice(base.as_slice())?;
        }
        Kind::Name(base, strokes) => {
            text.extend_from_slice(base.as_slice())?;
            text.extend_from_slice(strokes.as_slice())?;
        }
        _ => (),
    }
    Ok(())
}

fn amount(kind: &Kind) -> usize
    ensures { result ≡ spec.amount kind.now }
{
    match kind {
        Kind::BeginSchema(base) => base.as_slice().len(),
        Kind::Name(base, _) => base.as_slice().len(),
        Kind::Number(value) => *value as usize,
        _ => 0,
    }
}

impl<'a> Laid<'a> {
    fn add(&mut self, token: &Token) -> Result<(), AllocError>
        ensures { (before : List Token) → spec.IsLaid self.old.text.items self.old.symbols.items before → OnOk result (spec.IsLaid self.new.text.items self.new.symbols.items (before ++ token.now ∷ [])) }
    {
        let start = self.text.len();
        spell(&mut self.text, &token.kind)?;
        self.symbols.push(Placed {
            next: next_of(&token.kind),
            span: token.span,
            start,
            stop: self.text.len(),
            amount: amount(&token.kind),
        })?;
        Ok(())
    }
}

/// The tokens, laid out in a text of their own.
pub fn lay_out<'a>(alloc: Global, arena: &'a Bump, tokens: &[Token]) -> Result<Laid<'a>, AllocError>
    ensures { IfOk result (λ l. spec.IsLaid l.text.items l.symbols.items tokens.now) }
{
    let mut laid = Laid {
        text: Vec::new(arena),
        symbols: Vec::new(alloc),
    };
    for i in 0..tokens.len() {
        laid.add(&tokens[i])?;
    }
    Ok(laid)
}
