//! Marks and the words of the language, and how they are spelled.
ghost use Rattle.std.specs.Prelude.{◌≡◌, IfSome};
ghost use Rattle.text_reading.specs.Signs.{spelling};

/// A mark, or a word of the language, in the order of their texts.
#[derive(Clone, Copy, PartialEq, Eq, Debug)]
pub enum Sign {
    Bang,
    AbiC,
    AbiSystem,
    Ampersand,
    LeftParen,
    RightParen,
    Star,
    Plus,
    Comma,
    Minus,
    Arrow,
    Dots,
    UpTo,
    Colon,
    PathSep,
    Supertype,
    Semicolon,
    Less,
    Subtype,
    Assign,
    Equal,
    StructurallyEqual,
    FatArrow,
    Greater,
    LeftBracket,
    RightBracket,
    After,
    Args,
    As,
    Assume,
    Assumptions,
    At,
    Auto,
    Binding,
    Budget,
    Closure,
    Components,
    Const,
    Coroutine,
    Count,
    Dyn,
    Elaborate,
    Error,
    Escapes,
    Expr,
    Extern,
    Fn,
    Fold,
    For,
    Goals,
    Impl,
    Implied,
    In,
    Infer,
    Infers,
    Inherent,
    Is,
    Key,
    Let,
    Limit,
    May,
    Methods,
    Mode,
    Mut,
    Null,
    Of,
    One,
    Opaque,
    Open,
    Overlap,
    Param,
    Prove,
    Pulls,
    Regions,
    Repeat,
    Rigid,
    SelfType,
    Sized,
    Skip,
    Solve,
    Solver,
    Stop,
    Struct,
    Super,
    Supertraits,
    Then,
    Trait,
    Type,
    Unify,
    Unsafe,
    Variables,
    Visit,
    Walk,
    Where,
    With,
    Witness,
    LeftBrace,
    Bar,
    RightBrace,
}

// The table of signs and their texts.
macro_rules! signs {
    ($($sign:ident $text:literal,)*) => {
        [$((Sign::$sign, $text)),*]
    };
}

// Each sign and its text, in the order of the texts.
static SIGNS: [(Sign, &str); 99] = signs! {
    Bang "!", AbiC "\"C\"", AbiSystem "\"system\"", Ampersand "&", LeftParen "(", RightParen ")", Star "*",
    Plus "+", Comma ",", Minus "-", Arrow "->", Dots "..", UpTo "..=", Colon ":", PathSep "::",
    Supertype ":>", Semicolon ";", Less "<", Subtype "<:", Assign "=", Equal "==", StructurallyEqual "===",
    FatArrow "=>", Greater ">", LeftBracket "[", RightBracket "]", After "after", Args "args", As "as",
    Assume "assume", Assumptions "assumptions", At "at", Auto "auto", Binding "binding", Budget "budget",
    Closure "closure", Components "components", Const "const", Coroutine "coroutine", Count "count",
    Dyn "dyn", Elaborate "elaborate", Error "error", Escapes "escapes", Expr "expr", Extern "extern", Fn "fn",
    Fold "fold", For "for", Goals "goals", Impl "impl", Implied "implied", In "in", Infer "infer",
    Infers "infers", Inherent "inherent", Is "is", Key "key", Let "let", Limit "limit", May "may",
    Methods "methods", Mode "mode", Mut "mut", Null "null", Of "of", One "one", Opaque "opaque", Open "open",
    Overlap "overlap", Param "param", Prove "prove", Pulls "pulls", Regions "regions", Repeat "repeat",
    Rigid "rigid", SelfType "self", Sized "sized", Skip "skip", Solve "solve", Solver "solver", Stop "stop",
    Struct "struct", Super "super", Supertraits "supertraits", Then "then", Trait "trait", Type "type",
    Unify "unify", Unsafe "unsafe", Variables "variables", Visit "visit", Walk "walk", Where "where",
    With "with", Witness "witness", LeftBrace "{", Bar "|", RightBrace "}",
};

impl Sign {
    /// How the sign is written.
    pub fn spelling(self) -> &'static str
        ensures { result.now ≡ spelling self }
    {
        SIGNS[self as usize].1
    }
}

// The sign that is written so.
pub(super) fn sign_of(text: &[u8]) -> Option<Sign>
    ensures { IfSome result (λ s. spelling s ≡ text.now) }
{
    let mut low = 0;
    let mut high = SIGNS.len();
    'signs: while low < high {
        let middle = low + (high - low) / 2;
        let sign = SIGNS[middle].0;
        let found = sign.spelling().as_bytes();
        if found == text {
            return Some(sign);
        }
        if found < text {
            low = middle + 1;
        } else {
            high = middle;
        }
    }
    None
}
