//! The pieces of a text with variables.
ghost use Rattle.std.specs.Prelude.{◌≡◌, ◌≤◌, drop, map, length};
ghost use Rattle.path_normal.specs.Variables.{run_len, behind_dollar, pieces_of, is_variable, is_of_target, is_of_request, is_of_list, has_name_behind, is_known, variable_count};
ghost use Rattle.path_normal.specs.PiecesLeft.{piece_text, pieces_left, IsNameInBraces};

/// A piece of a text with variables.
#[derive(Clone, Copy, Debug, Drop)]
pub enum Piece<'a> {
    /// A byte that stands for itself.
    Byte(u8),
    /// A variable, by its name.
    Variable(&'a [u8]),
    /// A `$` that begins no variable: no name stands behind it, neither bare nor in braces.
    Stray,
}

/// The pieces of a text, one by one. A copy gives the same pieces.
#[derive(Clone, Copy, Debug, Drop)]
pub struct Pieces<'a> {
    rest: &'a [u8],
}

/// The pieces of a text: a variable is `$NAME`, with the longest run of letters, digits and `_`, or `${NAME}`, where NAME
/// isn't empty. Each other `$` is stray.
pub fn pieces_in(text: &[u8]) -> Pieces<'_>
    ensures { pieces_left result ≡ pieces_of text.now }
{
    Pieces { rest: text }
}

impl<'a> Iterator for Pieces<'a> {
    ghost use Rattle.std.specs.Iterator.{YieldsFirstBy, item_count};

    type Item = Piece<'a>;

    ghost next_gives = { YieldsFirstBy piece_text pieces_left };

    ghost remaining = { item_count pieces_left };

    fn next(&mut self) -> Option<Piece<'a>> {
        let (first, rest) = self.rest.split_first()?;
        if *first != b'$' {
            self.rest = rest;
            return Some(Piece::Byte(*first));
        }
        let (piece, behind) = behind_dollar(rest);
        self.rest = behind;
        Some(piece)
    }
}

/// The piece that a `$` in front of the text begins, and the text behind it.
fn behind_dollar(text: &[u8]) -> (Piece<'_>, &[u8])
    ensures piece { piece_text result.0 ≡ (behind_dollar text.now).0 }
    ensures behind { result.1.now ≡ drop (behind_dollar text.now).1 text.now }
{
    if text.starts_with(b"{") {
        return match name_in_braces(&text[1..]) {
            Some(name) => (Piece::Variable(name), &text[name.len() + 2..]),
            None => (Piece::Stray, text),
        };
    }
    match run_len(text) {
        0 => (Piece::Stray, text),
        len => (Piece::Variable(&text[..len]), &text[len..]),
    }
}

/// The name in front of a `}`, behind a `{`.
fn name_in_braces(inside: &[u8]) -> Option<&[u8]>
    ensures { IsNameInBraces inside.now result }
{
    let len = run_len(inside);
    if len > 0 && inside[len..].starts_with(b"}") {
        Some(&inside[..len])
    } else {
        None
    }
}

/// How many letters, digits and `_` the text begins with.
fn run_len(text: &[u8]) -> usize
    ensures value { result ≡ run_len text.now }
    ensures within { result ≤ length text.now }
{
    for (at, byte) in text.iter().enumerate() {
        if !(byte.is_ascii_alphanumeric() || *byte == b'_') {
            return at;
        }
    }
    text.len()
}

/// Whether the name is one of a variable: `host`, `method`, `uri`, `request_uri`, `remote_addr`, `dollar`, or `arg_N`,
/// `cookie_N` or `header_N` with an `N` that isn't empty.
pub fn is_variable(name: &[u8]) -> bool
    ensures { result ≡ is_variable name.now }
{
    is_of_target(name) || is_of_request(name) || is_of_list(name)
}

fn is_of_target(name: &[u8]) -> bool
    ensures { result ≡ is_of_target name.now }
{
    name == b"host".as_slice() || name == b"uri".as_slice() || name == b"request_uri".as_slice()
}

fn is_of_request(name: &[u8]) -> bool
    ensures { result ≡ is_of_request name.now }
{
    name == b"method".as_slice()
        || name == b"remote_addr".as_slice()
        || name == b"dollar".as_slice()
}

fn is_of_list(name: &[u8]) -> bool
    ensures { result ≡ is_of_list name.now }
{
    has_name_behind(b"arg_", name)
        || has_name_behind(b"cookie_", name)
        || has_name_behind(b"header_", name)
}

/// Whether the name is the prefix with something behind it.
fn has_name_behind(prefix: &[u8], name: &[u8]) -> bool
    ensures { result ≡ has_name_behind prefix.now name.now }
{
    match name.strip_prefix(prefix) {
        Some(rest) => !rest.is_empty(),
        None => false,
    }
}

/// How many variables the text has, where each `$` of it begins a variable of the set or of the further names; `None`
/// where some `$` begins none. It takes no memory.
pub fn variable_count(text: &[u8], further: &[&[u8]]) -> Option<usize>
    ensures { result ≡ variable_count (map (λ name. name.now) further.now) text.now }
{
    let mut count = 0;
    for piece in pieces_in(text) {
        match piece {
            Piece::Byte(_) => {}
            Piece::Variable(name) => {
                if !is_known(name, further) {
                    return None;
                }
                count += 1;
            }
            Piece::Stray => return None,
        }
    }
    Some(count)
}

/// Whether the name is one of the set or of the further names.
fn is_known(name: &[u8], further: &[&[u8]]) -> bool
    ensures { result ≡ is_known (map (λ known. known.now) further.now) name.now }
{
    if is_variable(name) {
        return true;
    }
    for known in further {
        if *known == name {
            return true;
        }
    }
    false
}
