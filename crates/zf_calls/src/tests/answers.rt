//! What the calls below `run` answer where there is memory.
use bumpalo::Bump;
use std::test::Fail;
use zf_checker::check_spec;
use zf_checker::listing::listing;
use zf_parse::parse;
use zf_scan::scan::scan;
use zf_term::Entry;
use zf_term::type_text::type_text;

const SOURCE: &str = r"\begin{zed}
[NAME]; X == \num \cross NAME
\end{zed}
";

const LISTING: &str = r"Given NAME
Abbreviation X: \power (\num \cross NAME)
";

#[test]
fn from_tokens_to_texts(rt: HostRuntime) -> Result<(), Fail> {
    let tokens = scan(rt.alloc(), SOURCE.as_bytes())?;
    assert!(rt; tokens.len() == 11);
    let arena = Bump::new(rt.alloc());
    let spec = parse(rt.alloc(), &arena, tokens.as_slice())?;
    let checked = check_spec(rt.alloc(), &arena, &spec)?;
    let listed = listing(rt.alloc(), &checked.globals)?;
    assert_eq!(rt; listed.as_slice(), LISTING.as_bytes());
    let Some(Entry::Abbrev(ztype, _, _)) = checked.globals.entry("X") else {
        return Err(Fail::new("no abbreviation"));
    };
    let text = type_text(rt.alloc(), ztype)?;
    assert_eq!(rt; text.as_slice(), r"\power (\num \cross NAME)".as_bytes());
    Ok(())
}
