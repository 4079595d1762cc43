//! Commands that are meant by others. Nothing is promised of this.

use zf_tree::back;

/// The commands of letters that are read, but for those that begin and end boxes.
const COMMANDS: &[&[u8]] = &[
    b"\\also",
    b"\\cap",
    b"\\comp",
    b"\\cross",
    b"\\cup",
    b"\\defs",
    b"\\Delta",
    b"\\div",
    b"\\dom",
    b"\\dres",
    b"\\emptyset",
    b"\\exists",
    b"\\exists_1",
    b"\\finset",
    b"\\forall",
    b"\\fun",
    b"\\geq",
    b"\\iff",
    b"\\implies",
    b"\\in",
    b"\\inj",
    b"\\inv",
    b"\\land",
    b"\\leq",
    b"\\limg",
    b"\\lnot",
    b"\\lor",
    b"\\mapsto",
    b"\\mod",
    b"\\nat",
    b"\\nat_1",
    b"\\ndres",
    b"\\neq",
    b"\\notin",
    b"\\nrres",
    b"\\num",
    b"\\oplus",
    b"\\pfun",
    b"\\pinj",
    b"\\power",
    b"\\ran",
    b"\\rel",
    b"\\rimg",
    b"\\rres",
    b"\\setminus",
    b"\\subset",
    b"\\subseteq",
    b"\\upto",
    b"\\where",
    b"\\Xi",
];

/// How something is written elsewhere, and how it is written here.
type Row = (&'static [u8], &'static [u8]);

/// Commands of LaTeX and of other styles for Z, some with what follows them, the longer ones first.
const ELSEWHERE: &[Row] = &[
    (b"\\wedge", b"\\land"),
    (b"\\vee", b"\\lor"),
    (b"\\or", b"\\lor"),
    (b"\\neg", b"\\lnot"),
    (b"\\imp", b"\\implies"),
    (b"\\Rightarrow", b"\\implies"),
    (b"\\Longrightarrow", b"\\implies"),
    (b"\\Leftrightarrow", b"\\iff"),
    (b"\\Longleftrightarrow", b"\\iff"),
    (b"\\all", b"\\forall"),
    (b"\\exi", b"\\exists"),
    (b"\\exione", b"\\exists_1"),
    (b"\\nexists", b"\\lnot \\exists"),
    (b"\\bullet", b"@"),
    (b"\\cdot", b"@"),
    (b"\\dot", b"@"),
    (b"\\spot", b"@"),
    (b"\\mid", b"|"),
    (b"\\vert", b"|"),
    (b"\\not=", b"\\neq"),
    (b"\\not\\in", b"\\notin"),
    (b"\\not \\in", b"\\notin"),
    (b"\\not", b"\\lnot"),
    (b"\\ne", b"\\neq"),
    (b"\\le", b"\\leq"),
    (b"\\leqslant", b"\\leq"),
    (b"\\lt", b"<"),
    (b"\\nleq", b">"),
    (b"\\ge", b"\\geq"),
    (b"\\geqslant", b"\\geq"),
    (b"\\gt", b">"),
    (b"\\ngeq", b"<"),
    (b"\\mem", b"\\in"),
    (b"\\nem", b"\\notin"),
    (b"\\nin", b"\\notin"),
    (b"\\nsubseteq", b"\\lnot .. \\subseteq"),
    (b"\\subsetneq", b"\\subset"),
    (b"\\int", b"\\cap"),
    (b"\\uni", b"\\cup"),
    (b"\\union", b"\\cup"),
    (b"\\backslash", b"\\setminus"),
    (b"\\smallsetminus", b"\\setminus"),
    (b"\\varnothing", b"\\emptyset"),
    (b"\\lbrace", b"\\{"),
    (b"\\rbrace", b"\\}"),
    (b"\\ast", b"*"),
    (b"\\dots", b"\\upto"),
    (b"\\ldots", b"\\upto"),
    (b"\\cdots", b"\\upto"),
    (b"\\times", b"\\cross"),
    (b"\\to", b"\\fun"),
    (b"\\tfun", b"\\fun"),
    (b"\\rightarrow", b"\\fun"),
    (b"\\longrightarrow", b"\\fun"),
    (b"\\nrightarrow", b"\\pfun"),
    (b"\\rightarrowtail", b"\\inj"),
    (b"\\leftrightarrow", b"\\rel"),
    (b"\\longleftrightarrow", b"\\rel"),
    (b"\\map", b"\\mapsto"),
    (b"\\longmapsto", b"\\mapsto"),
    (b"\\triangleleft", b"\\dres"),
    (b"\\lhd", b"\\dres"),
    (b"\\dsub", b"\\ndres"),
    (b"\\triangleright", b"\\rres"),
    (b"\\rhd", b"\\rres"),
    (b"\\rsub", b"\\nrres"),
    (b"\\fcmp", b"\\comp"),
    (b"\\fovr", b"\\oplus"),
    (b"\\sim", b"\\inv"),
    (b"\\domain", b"\\dom"),
    (b"\\range", b"\\ran"),
    (b"\\mathbb{N}_1", b"\\nat_1"),
    (b"\\mathbb{N}", b"\\nat"),
    (b"\\mathbb{Z}", b"\\num"),
    (b"\\mathbb{P}", b"\\power"),
    (b"\\mathbb{F}", b"\\finset"),
    (b"\\mathbb N", b"\\nat"),
    (b"\\mathbb Z", b"\\num"),
    (b"\\mathbb P", b"\\power"),
    (b"\\mathbb F", b"\\finset"),
    (b"\\N_1", b"\\nat_1"),
    (b"\\N", b"\\nat"),
    (b"\\nats", b"\\nat"),
    (b"\\naturals", b"\\nat"),
    (b"\\Z", b"\\num"),
    (b"\\arithmos", b"\\num"),
    (b"\\integer", b"\\num"),
    (b"\\integers", b"\\num"),
    (b"\\P", b"\\power"),
    (b"\\pset", b"\\power"),
    (b"\\powerset", b"\\power"),
    (b"\\wp", b"\\power"),
    (b"\\F", b"\\finset"),
    (b"\\fset", b"\\finset"),
    (b"\\sdef", b"\\defs"),
    (b"\\triangleq", b"\\defs"),
];

/// Commands of LaTeX that are like one that is read, and mean something else.
const OTHERS: &[&[u8]] = &[
    b"\\dim", b"\\hat", b"\\hom", b"\\inf", b"\\let", b"\\lim", b"\\log", b"\\min", b"\\real",
    b"\\ref", b"\\rem", b"\\sin", b"\\sum", b"\\sup", b"\\tan",
];

/// The command that is read which is this name behind a backslash.
pub fn command_named(name: &[u8]) -> Option<&'static [u8]> {
    for command in COMMANDS {
        if command.strip_prefix(b"\\") == Some(name) {
            return Some(*command);
        }
    }
    None
}

/// What is meant by a command that is not read, with what follows it; empty where nothing is known to be.
pub(crate) fn meant_by(command: &[u8], text: &[u8]) -> &'static [u8] {
    for row in ELSEWHERE {
        if command.len() <= row.0.len() && text.starts_with(row.0) {
            return row.1;
        }
    }
    if OTHERS.contains(&command) {
        return b"";
    }
    spelled_like(command)
}

/// The first command that is read and spelled like this one; empty where there is none.
fn spelled_like(command: &[u8]) -> &'static [u8] {
    for other in COMMANDS {
        if are_like(command, other) {
            return other;
        }
    }
    b""
}

/// The fewest bytes of a command by which it is taken for one that differs by a letter.
const TELLING: usize = 4;

/// Whether the commands differ by case, or by one letter that is inserted, left out or replaced.
fn are_like(command: &[u8], other: &[u8]) -> bool {
    if command.eq_ignore_ascii_case(other) {
        return true;
    }
    let same = common_len(command, other);
    let left = back(command, same);
    let right = back(other, same);
    let behind_left = back(left, 1);
    let behind_right = back(right, 1);
    TELLING <= command.len()
        && (behind_left == right || left == behind_right || behind_left == behind_right)
}

/// How many bytes two texts begin with alike.
fn common_len(left: &[u8], right: &[u8]) -> usize {
    let len = left.len().min(right.len());
    for place in 0..len {
        if left[place] != right[place] {
            return place;
        }
    }
    len
}
