//! Sources of a few lines.

/// A schema of one component.
pub const ONE: &str = r"\begin{zed}
[NAME]
\end{zed}
\begin{schema}{S}
x : NAME
\end{schema}
";

/// A state of two components.
pub const BOOK: &str = r"\begin{zed}
[NAME, DATE]
\end{zed}
\begin{schema}{BirthdayBook}
known : \power NAME; birthday : NAME \pfun DATE
\where
known = \dom birthday
\end{schema}
";

/// What is written of `BOOK` where there is one name and two dates.
pub const BOOK_ANSWER: &str = r"known == {}, birthday == {}
known == {NAME.1}, birthday == {(NAME.1, DATE.1)}
known == {NAME.1}, birthday == {(NAME.1, DATE.2)}
end
";

/// A schema of more bindings than can be looked at.
pub const WIDE: &str = r"\begin{schema}{S}
a, b, c, d : 0 \upto 4000
\end{schema}
";
