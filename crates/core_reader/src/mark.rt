// Keywords and signs.

ghost use Rattle.std.specs.Prelude.{◌≡◌, map};
ghost use Rattle.core_reader.specs.Terminals.{mark_in, keyword_of, sign_of};

use core_grammar::Mark;

// The keywords of the language with their marks, as its definition lists them.
const KEYWORDS: [(&[u8], Mark); 19] = [
    (b"after", Mark::After),
    (b"apply", Mark::Apply),
    (b"attributes", Mark::Attributes),
    (b"call", Mark::Call),
    (b"case", Mark::Case),
    (b"catch", Mark::Catch),
    (b"do", Mark::Do),
    (b"end", Mark::End),
    (b"fun", Mark::Fun),
    (b"in", Mark::In),
    (b"let", Mark::Let),
    (b"letrec", Mark::Letrec),
    (b"module", Mark::Module),
    (b"of", Mark::Of),
    (b"primop", Mark::Primop),
    (b"receive", Mark::Receive),
    (b"timeout", Mark::Timeout),
    (b"try", Mark::Try),
    (b"when", Mark::When),
];

// The signs of the language with their marks.
const SIGNS: [(&[u8], Mark); 17] = [
    (b"(", Mark::OpenRound),
    (b")", Mark::CloseRound),
    (b"{", Mark::OpenBrace),
    (b"}", Mark::CloseBrace),
    (b"[", Mark::OpenSquare),
    (b"]", Mark::CloseSquare),
    (b"<", Mark::Less),
    (b">", Mark::Greater),
    (b",", Mark::Comma),
    (b"=", Mark::Equals),
    (b"/", Mark::Slash),
    (b":", Mark::Colon),
    (b"|", Mark::Bar),
    (b"#", Mark::Hash),
    (b"~", Mark::Tilde),
    (b"->", Mark::Arrow),
    (b"-|", Mark::Dash),
];

// The mark of the row that these bytes spell, if there is one.
fn mark_in(rows: &[(&[u8], Mark)], bytes: &[u8]) -> Option<Mark>
    ensures { result ≡ mark_in (map (λ row. (row.0.now, row.1)) rows.now) bytes.now }
{
    for row in rows {
        if bytes == row.0 {
            return Some(row.1);
        }
    }
    None
}

/// The mark of a keyword, if the language has it.
#[tactic(auto, unfolding(crate::specs::Terminals::keyword_of))]
pub fn keyword_of(bytes: &[u8]) -> Option<Mark>
    ensures { result ≡ keyword_of bytes.now }
{
    mark_in(&KEYWORDS, bytes)
}

/// The mark of a sign, if the language has it.
#[tactic(auto, unfolding(crate::specs::Terminals::sign_of))]
pub fn sign_of(bytes: &[u8]) -> Option<Mark>
    ensures { result ≡ sign_of bytes.now }
{
    mark_in(&SIGNS, bytes)
}
