//! The text of a statement, as its words are read.

ghost use Rattle.std.specs.Prelude.{◌≡◌, ◌≤◌, ◌<◌, not, ◌==◌, ◌&&◌, length, take, drop, get_or};
ghost use Rattle.std.specs.List.{list_all, position};
ghost use Rattle.mqsc_lex.specs.Texts.{is_blank, is_plain};
ghost use Rattle.qsg_statement.specs.Texts.{front_count, behind_blanks, begins_with, is_define_text, begins_plain_define, begins_define, without_semicolon, read_text};

fn is_blank(byte: u8) -> bool
    ensures { result ≡ is_blank byte }
{
    byte == b' ' || byte == b'\t'
}

fn are_blank(bytes: &[u8]) -> bool
    ensures { result ≡ list_all is_blank bytes.now }
{
    bytes.iter().all(|b| is_blank(*b))
}

/// Whether a byte is one of a plain text: no blank, apostrophe or parenthesis.
fn is_plain(byte: u8) -> bool
    ensures { result ≡ is_plain byte }
{
    !(is_blank(byte) || byte == b'\'' || byte == b'(' || byte == b')')
}

fn first_unblank(bytes: &[u8]) -> Option<usize>
    ensures { result ≡ position (λ b. not (is_blank b)) bytes.now }
{
    bytes.iter().position(|b| !is_blank(*b))
}

fn first_unplain(bytes: &[u8]) -> Option<usize>
    ensures { result ≡ position (λ b. not (is_plain b)) bytes.now }
{
    bytes.iter().position(|b| !is_plain(*b))
}

fn behind_blanks(bytes: &[u8]) -> &[u8]
    ensures { result.now ≡ behind_blanks bytes.now }
{
    &bytes[first_unblank(bytes).unwrap_or(bytes.len())..]
}

fn begins_with(bytes: &[u8], byte: u8) -> bool
    ensures { result ≡ begins_with byte bytes.now }
{
    match bytes {
        [first, ..] => *first == byte,
        [] => false,
    }
}

fn is_define_text(text: &[u8]) -> bool
    ensures { result ≡ is_define_text text.now }
{
    text.eq_ignore_ascii_case(b"DEFINE") || text.eq_ignore_ascii_case(b"DEF")
}

/// Whether bytes begin with the plain text DEFINE, and with no parenthesis behind it.
fn begins_plain_define(bytes: &[u8]) -> bool
    ensures { result ≡ begins_plain_define bytes.now }
{
    let (word, behind) = bytes.split_at(first_unplain(bytes).unwrap_or(bytes.len()));
    is_define_text(word) && !begins_with(behind, b'(')
}

/// Whether a byte is a `;` with blanks alone behind it.
fn is_last_semicolon(byte: u8, behind: &[u8]) -> bool
    ensures { result ≡ ((byte == 59) && list_all is_blank behind.now) }
{
    byte == b';' && are_blank(behind)
}

/// Where the `;` that is the last byte but for blanks stands; the length where there is none.
fn semicolon_place(bytes: &[u8]) -> usize
    ensures within { result ≤ length bytes.now }
    ensures cut { take result bytes.now ≡ without_semicolon bytes.now }
    ensures byte { result < length bytes.now → get_or bytes.now result 0 ≡ 59 }
{
    for (i, byte) in bytes.iter().enumerate() {
        if is_last_semicolon(*byte, &bytes[i + 1..]) {
            return i;
        }
    }
    bytes.len()
}

/// The text of a statement as its words are read: without one `;` at the end of a DEFINE.
pub fn read_text(text: &str) -> &str
    ensures value { result.now ≡ read_text text.now }
    ensures short { length result.now ≤ length text.now }
{
    if begins_plain_define(behind_blanks(text.as_bytes())) {
        text.split_at(semicolon_place(text.as_bytes())).0
    } else {
        text
    }
}
