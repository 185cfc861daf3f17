// The kinds of token.
ghost use Rattle.std.specs.Prelude.{◌≡◌, codes, if◌then◌else◌};
ghost use Rattle.std.specs.Str.{bytes_eq};
ghost use Rattle.nk_lex.specs.declared.kind.Kind.TheVariants as kind;
ghost use Rattle.nk_lex.specs.Kinds.{kind_of_name};

#[derive(Clone, Copy, Debug, PartialEq, Eq)]
pub enum Kind {
    Name,
    Number,

    Field,
    Tag,
    Switch,
    Ports,
    Link,
    Let,
    Certificate,
    Row,
    Start,
    Id,
    Drop,
    Dup,
    Tables,
    Table,
    Group,
    Out,
    In,
    Virtual,
    Fabric,
    By,

    Plus,
    Semicolon,
    Star,
    Tilde,
    OpenParen,
    CloseParen,
    Equal,
    Assign,
    FatArrow,
    Arrow,
    Colon,
    Comma,
    Slash,
    DotDot,
    OpenBracket,
    CloseBracket,
}

/// Whether a name is this word. Nearly each name differs from a word in its length or its first two bytes, and then nothing is called
/// to compare them. With a call for each keyword, cutting a text into tokens took twice the instructions.
#[inline(always)]
fn is_word(name: &[u8], word: &[u8]) -> bool
    ensures { result ≡ bytes_eq name.now word.now }
{
    if name.len() != word.len() {
        return false;
    }
    match (name, word) {
        ([a, b, rest @ ..], [c, d, others @ ..]) => a == c && b == d && rest == others,
        _ => name == word,
    }
}

/// The kind of a keyword; for any other text the kind of a name.
pub fn kind_of_name(name: &str) -> Kind
    ensures { result ≡ kind_of_name name.now }
{
    let name = name.as_bytes();
    if is_word(name, b"field") {
        Kind::Field
    } else if is_word(name, b"tag") {
        Kind::Tag
    } else if is_word(name, b"switch") {
        Kind::Switch
    } else if is_word(name, b"ports") {
        Kind::Ports
    } else if is_word(name, b"link") {
        Kind::Link
    } else {
        kind_past_declarations(name)
    }
}

/// The kind of a text that is none of the first five keywords.
#[inline(always)]
fn kind_past_declarations(name: &[u8]) -> Kind
    ensures { result ≡ (if bytes_eq name.now (codes "let") then kind.Let
        else if bytes_eq name.now (codes "certificate") then kind.Certificate
        else if bytes_eq name.now (codes "row") then kind.Row
        else if bytes_eq name.now (codes "start") then kind.Start
        else if bytes_eq name.now (codes "id") then kind.Id
        else if bytes_eq name.now (codes "drop") then kind.Drop
        else if bytes_eq name.now (codes "dup") then kind.Dup
        else if bytes_eq name.now (codes "tables") then kind.Tables
        else if bytes_eq name.now (codes "table") then kind.Table
        else if bytes_eq name.now (codes "group") then kind.Group
        else if bytes_eq name.now (codes "out") then kind.Out
        else if bytes_eq name.now (codes "in") then kind.In
        else if bytes_eq name.now (codes "virtual") then kind.Virtual
        else if bytes_eq name.now (codes "fabric") then kind.Fabric
        else if bytes_eq name.now (codes "by") then kind.By
        else kind.Name) }
{
    if is_word(name, b"let") {
        Kind::Let
    } else if is_word(name, b"certificate") {
        Kind::Certificate
    } else if is_word(name, b"row") {
        Kind::Row
    } else if is_word(name, b"start") {
        Kind::Start
    } else if is_word(name, b"id") {
        Kind::Id
    } else {
        kind_past_certificates(name)
    }
}

/// The kind of a text that is none of the first ten keywords.
#[inline(always)]
fn kind_past_certificates(name: &[u8]) -> Kind
    ensures { result ≡ (if bytes_eq name.now (codes "drop") then kind.Drop
        else if bytes_eq name.now (codes "dup") then kind.Dup
        else if bytes_eq name.now (codes "tables") then kind.Tables
        else if bytes_eq name.now (codes "table") then kind.Table
        else if bytes_eq name.now (codes "group") then kind.Group
        else if bytes_eq name.now (codes "out") then kind.Out
        else if bytes_eq name.now (codes "in") then kind.In
        else if bytes_eq name.now (codes "virtual") then kind.Virtual
        else if bytes_eq name.now (codes "fabric") then kind.Fabric
        else if bytes_eq name.now (codes "by") then kind.By
        else kind.Name) }
{
    if is_word(name, b"drop") {
        Kind::Drop
    } else if is_word(name, b"dup") {
        Kind::Dup
    } else if is_word(name, b"tables") {
        Kind::Tables
    } else if is_word(name, b"table") {
        Kind::Table
    } else if is_word(name, b"group") {
        Kind::Group
    } else {
        kind_past_tables(name)
    }
}

/// The kind of a text that is none of the first fifteen keywords.
#[inline(always)]
fn kind_past_tables(name: &[u8]) -> Kind
    ensures { result ≡ (if bytes_eq name.now (codes "out") then kind.Out
        else if bytes_eq name.now (codes "in") then kind.In
        else if bytes_eq name.now (codes "virtual") then kind.Virtual
        else if bytes_eq name.now (codes "fabric") then kind.Fabric
        else if bytes_eq name.now (codes "by") then kind.By
        else kind.Name) }
{
    if is_word(name, b"out") {
        Kind::Out
    } else if is_word(name, b"in") {
        Kind::In
    } else if is_word(name, b"virtual") {
        Kind::Virtual
    } else if is_word(name, b"fabric") {
        Kind::Fabric
    } else if is_word(name, b"by") {
        Kind::By
    } else {
        Kind::Name
    }
}
