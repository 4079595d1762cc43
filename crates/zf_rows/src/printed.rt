//! Trees as texts: the name of a form and then its parts, in round brackets, with a blank before each.
use std::alloc::Global;
use std::fmt::Display;
use std::{fmt, io};
use zf_data::arena::Boxed;
use zf_messages::line_of;
use zf_tree::{
    Decl, Link, Listed, Name, Operator, Paragraph, Part, SchemaExp, SchemaRef, Sign, Span, Spec,
    Term, Unary, VarDecl, ZBox,
};

/// The text of the boxes; where the source is given, the line of each name and term in it stands after it and `@`.
pub fn printed(alloc: Global, spec: &Spec<'_>, source: Option<&[u8]>) -> io::Result<String> {
    let mut printer = Printer {
        text: String::new(alloc),
        source,
    };
    for zbox in spec.boxes.as_slice() {
        printer.zbox(zbox)?;
    }
    Ok(printer.text)
}

/// The text so far.
#[derive(Drop)]
struct Printer<'s> {
    text: String,
    source: Option<&'s [u8]>,
}

impl<'s> Printer<'s> {
    fn open(&mut self, form: &str) -> fmt::Result {
        Ok(write!(self.text, " ({form}")?)
    }

    fn close(&mut self) -> fmt::Result {
        Ok(self.text.push_str(")")?)
    }

    /// A word that has a place: a name, or a bracket with the name of a form.
    fn word<W: Display + Drop>(&mut self, word: W, span: Span) -> fmt::Result {
        write!(self.text, " {word}")?;
        self.at(span)
    }

    fn at(&mut self, span: Span) -> fmt::Result {
        if let Some(source) = self.source {
            write!(self.text, "@{}", line_of(source, span.start))?;
        }
        Ok(())
    }

    fn name(&mut self, name: &Name<'_>) -> fmt::Result {
        write!(self.text, " {}", text_of(name.base())?)?;
        if !name.is_bare() {
            write!(self.text, "^{}", text_of(name.strokes())?)?;
        }
        self.at(name.span)
    }

    fn names(&mut self, names: &[Name<'_>]) -> fmt::Result {
        for name in names {
            self.name(name)?;
        }
        Ok(())
    }

    /// The bracket and the name of what is applied to one term.
    fn unary(&mut self, span: Span, op: Unary) -> fmt::Result {
        match op {
            Unary::Sign(Sign::Symbol(prefix)) => self.word(format_args!("({prefix:?}"), span),
            Unary::Sign(Sign::Minus) => self.word("(Minus", span),
            Unary::Inverse => self.word("(Inverse", span),
            Unary::Not => self.word("(Not", span),
        }
    }

    /// The bracket and the name of what stands between two terms.
    fn operator(&mut self, span: Span, op: Operator) -> fmt::Result {
        match op {
            Operator::Function(op) => self.word(format_args!("({op:?}"), span),
            Operator::Generic(arrow) => self.word(format_args!("({arrow:?}"), span),
            Operator::Connective(connective) => self.word(format_args!("({connective:?}"), span),
            Operator::Application => self.word("(Apply", span),
            Operator::Image => self.word("(Image", span),
        }
    }

    /// The bracket and the name of what makes one term of several.
    fn listed(&mut self, span: Span, form: Listed) -> fmt::Result {
        match form {
            Listed::Tuple => self.word("(Tuple", span),
            Listed::Display => self.word("(Display", span),
            Listed::Product => self.word("(Product", span),
        }
    }

    #[cycle(terms)]
    fn term(&mut self, term: &Term<'_>) -> fmt::Result {
        match term {
            Term::Name(span, name) => self.name(&name.at(*span)),
            Term::Number(span, value) => self.word(*value, *span),
            Term::Constant(span, constant) => self.word(format_args!("{constant:?}"), *span),
            Term::EmptySet(span, set) => self.marked("(EmptySet", *span, set.get()),
            Term::Bracket(span, inner) => self.marked("(Bracket", *span, inner.get()),
            Term::Listed(span, form, terms) => {
                self.listed(*span, *form)?;
                self.all(terms.as_slice())
            }
            Term::Comprehension(_, _, _, _) => self.comprehension(term),
            Term::Unary(span, op, operand) => {
                self.unary(*span, *op)?;
                self.last(operand.get())
            }
            Term::Binary(span, op, left, right) => {
                self.operator(*span, *op)?;
                self.term(left.get())?;
                self.last(right.get())
            }
            Term::Chain(span, first, links) => {
                self.word("(Chain", *span)?;
                self.term(first.get())?;
                self.links(links.as_slice())
            }
            Term::Quantified(_, _, _, _, _) => self.quantified(term),
        }
    }

    #[cycle(terms)]
    fn marked(&mut self, form: &str, span: Span, term: &Term<'_>) -> fmt::Result {
        self.word(form, span)?;
        self.last(term)
    }

    #[cycle(terms)]
    fn comprehension(&mut self, term: &Term<'_>) -> fmt::Result {
        let Term::Comprehension(span, decls, filter, term) = term else {
            return Ok(());
        };
        self.word("(Comprehension", *span)?;
        self.bound(decls.as_slice())?;
        self.optional("|", filter)?;
        self.optional("@", term)?;
        self.close()
    }

    #[cycle(terms)]
    fn quantified(&mut self, term: &Term<'_>) -> fmt::Result {
        let Term::Quantified(quantifier, span, decls, filter, body) = term else {
            return Ok(());
        };
        self.word(format_args!("({quantifier:?}"), *span)?;
        self.bound(decls.as_slice())?;
        self.optional("|", filter)?;
        self.open("@")?;
        self.last(body.get())?;
        self.close()
    }

    /// The last part of a form.
    #[cycle(terms)]
    fn last(&mut self, term: &Term<'_>) -> fmt::Result {
        self.term(term)?;
        self.close()
    }

    /// All parts of a form.
    #[cycle(terms)]
    fn all<'a>(&mut self, terms: &[Boxed<'a, Term<'a>>]) -> fmt::Result {
        for term in terms {
            self.term(term.get())?;
        }
        self.close()
    }

    /// A part after a mark, if it is there.
    #[cycle(terms)]
    fn optional(&mut self, mark: &str, part: &Part<'_>) -> fmt::Result {
        match part.get() {
            None => Ok(()),
            Some(term) => {
                self.open(mark)?;
                self.last(term.get())
            }
        }
    }

    #[cycle(terms)]
    fn links(&mut self, links: &[Link<'_>]) -> fmt::Result {
        for link in links {
            write!(self.text, " ({:?}", link.relation)?;
            self.last(link.right.get())?;
        }
        self.close()
    }

    #[cycle(terms)]
    fn bound(&mut self, decls: &[VarDecl<'_>]) -> fmt::Result {
        for decl in decls {
            self.open(":")?;
            self.names(decl.names.as_slice())?;
            self.last(decl.set.get())?;
        }
        Ok(())
    }

    /// Declarations and predicates, and the end.
    fn body<'a>(&mut self, decls: &[Decl<'a>], predicates: &[Boxed<'a, Term<'a>>]) -> fmt::Result {
        self.decls(decls)?;
        self.predicates(predicates)?;
        self.close()
    }

    fn predicates<'a>(&mut self, predicates: &[Boxed<'a, Term<'a>>]) -> fmt::Result {
        for predicate in predicates {
            self.open("|")?;
            self.last(predicate.get())?;
        }
        Ok(())
    }

    fn reference(&mut self, reference: &SchemaRef<'_>) -> fmt::Result {
        write!(self.text, " ({:?}", reference.mark)?;
        self.name(&reference.name)?;
        self.close()
    }

    fn decls(&mut self, decls: &[Decl<'_>]) -> fmt::Result {
        for decl in decls {
            match decl {
                Decl::Vars(names, set) => {
                    self.open(":")?;
                    self.names(names.as_slice())?;
                    self.last(set.get())?;
                }
                Decl::Include(reference) => self.reference(reference)?,
            }
        }
        Ok(())
    }

    #[cycle(schemas)]
    fn schema(&mut self, schema: &SchemaExp<'_>) -> fmt::Result {
        match schema {
            SchemaExp::Text(_, decls, predicates) => {
                self.open("Text")?;
                self.body(decls.as_slice(), predicates.as_slice())
            }
            SchemaExp::Ref(_, reference) => self.reference(reference),
            SchemaExp::Both(_, left, right) => {
                self.open("Both")?;
                self.schema(left.get())?;
                self.last_schema(right.get())
            }
            SchemaExp::Or(span, left, right) => {
                self.word("(Or", *span)?;
                self.schema(left.get())?;
                self.last_schema(right.get())
            }
            SchemaExp::Bracket(_, inner) => {
                self.open("Bracket")?;
                self.last_schema(inner.get())
            }
        }
    }

    /// The last part of a schema.
    #[cycle(schemas)]
    fn last_schema(&mut self, schema: &SchemaExp<'_>) -> fmt::Result {
        self.schema(schema)?;
        self.close()
    }

    fn paragraph(&mut self, paragraph: &Paragraph<'_>) -> fmt::Result {
        match paragraph {
            Paragraph::Given(names) => {
                self.open("Given")?;
                self.names(names.as_slice())?;
                self.close()
            }
            Paragraph::Free(name, constructors) => {
                self.open("Free")?;
                self.name(name)?;
                self.names(constructors.as_slice())?;
                self.close()
            }
            Paragraph::Abbrev(name, term) => {
                self.open("Abbrev")?;
                self.name(name)?;
                self.last(term.get())
            }
            Paragraph::Defs(name, schema) => {
                self.open("Defs")?;
                self.name(name)?;
                self.last_schema(schema)
            }
        }
    }

    fn paragraphs(&mut self, paragraphs: &[Paragraph<'_>]) -> fmt::Result {
        for paragraph in paragraphs {
            self.paragraph(paragraph)?;
        }
        self.close()
    }

    fn zbox(&mut self, zbox: &ZBox<'_>) -> fmt::Result {
        match zbox {
            ZBox::Zed(paragraphs) => {
                self.open("Zed")?;
                self.paragraphs(paragraphs.as_slice())
            }
            ZBox::SchemaBox(name, decls, predicates) => {
                self.open("Schema")?;
                self.name(name)?;
                self.body(decls.as_slice(), predicates.as_slice())
            }
        }
    }
}

fn text_of(bytes: &[u8]) -> Result<&str, fmt::Error> {
    match str::from_utf8(bytes) {
        Ok(text) => Ok(text),
        Err(_) => Err(fmt::Error),
    }
}
