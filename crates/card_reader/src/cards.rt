//! What a card is, and the fields of a statement (z/OS MVS JCL Reference, "Format of statements").
ghost use Rattle.std.specs.Prelude.{◌≡◌, ◌&&◌, false, length, not};
ghost use Rattle.std.specs.List.{list_all};
ghost use Rattle.mas_types.specs.Names.{is_blank};
ghost use Rattle.mas_types.specs.Numerals.{is_digit};

use mas_types::read_name;

/// What a card is outside data.
#[derive(Clone, Copy)]
pub enum Kind {
    /// `//*`.
    Comment,
    /// `//` and blanks: the end of the job.
    Null,
    /// `//name operation operands comments`.
    Statement,
    /// `/*` and a blank or nothing: the end of data.
    Delimiter,
    /// `/*` and another byte.
    Jes,
    /// Any other card.
    Stray,
}

/// The operation of a statement.
#[derive(Clone, Copy)]
pub enum Operation {
    /// `JOB`.
    Job,
    /// `EXEC`.
    Exec,
    /// `DD`.
    Dd,
    /// Any other word, or none.
    Other,
}

ghost use Rattle.card_reader.specs.Cards.{body as body_of, is_comment as is_comment_lem, is_null as is_null_lem, is_delimiter as is_delimiter_lem, kind_of as kind_of_lem, is_statement_kind, is_null_kind, without_blanks as without_blanks_lem, word as word_lem, behind_word as behind_word_lem, name_of as name_of_lem, operation_of as operation_of_lem, is_statement_name as is_statement_name_lem, ends_quoted as ends_quoted_lem, field_in, first_field as first_field_lem, is_continuation as is_continuation_lem, next_field as next_field_lem, ends_with_comma as ends_with_comma_lem, is_continued as is_continued_lem};

// The columns that are read of a card that begins with `//`.
const COLUMNS_READ: usize = 71;

// The greatest number of blanks between the slashes and continued operands.
const BLANKS_MOST: usize = 13;

fn are_blanks(text: &[u8]) -> bool
    ensures { result ≡ list_all is_blank text.now }
{
    text.iter().all(|b| *b == b' ')
}

// What follows the two slashes, up to column 71.
#[tactic(auto, using(std::proofs::lemmas::List::take_min))]
fn body(card: &[u8]) -> &[u8]
    ensures { result.now ≡ body_of card.now }
{
    let read = &card[..COLUMNS_READ.min(card.len())];
    if read.len() < 2 {
        return &[];
    }
    &read[2..]
}

/// Whether a card is a comment: `//*`.
pub fn is_comment(card: &[u8]) -> bool
    ensures { result ≡ is_comment_lem card.now }
{
    card.starts_with(b"//*")
}

fn is_null(card: &[u8]) -> bool
    ensures { result ≡ is_null_lem card.now }
{
    card.starts_with(b"//") && are_blanks(body(card))
}

/// Whether a card is `/*` with a blank or nothing after it, which ends data.
pub fn is_delimiter(card: &[u8]) -> bool
    ensures { result ≡ is_delimiter_lem card.now }
{
    card.starts_with(b"/*") && (card.len() == 2 || card[2] == b' ')
}

/// What a card is outside data. Of a card that begins with `//` columns 1 to 71 are read.
pub fn kind_of(card: &[u8]) -> Kind
    ensures { result ≡ kind_of_lem card.now }
{
    if is_comment(card) {
        Kind::Comment
    } else if is_null(card) {
        Kind::Null
    } else if card.starts_with(b"//") {
        Kind::Statement
    } else if is_delimiter(card) {
        Kind::Delimiter
    } else if card.starts_with(b"/*") {
        Kind::Jes
    } else {
        Kind::Stray
    }
}

/// Whether a card is a statement.
pub fn is_statement(card: &[u8]) -> bool
    ensures { result ≡ is_statement_kind (kind_of_lem card.now) }
{
    matches!(kind_of(card), Kind::Statement)
}

/// Whether a card ends the job.
pub fn ends_job(card: &[u8]) -> bool
    ensures { result ≡ is_null_kind (kind_of_lem card.now) }
{
    matches!(kind_of(card), Kind::Null)
}

// A text from its first byte on that is no blank.
pub(crate) fn without_blanks(text: &[u8]) -> &[u8]
    ensures { result.now ≡ without_blanks_lem text.now }
{
    let mut rest = text;
    while let [b' ', behind @ ..] = rest {
        rest = behind;
    }
    rest
}

fn word_length(text: &[u8]) -> usize
    ensures { result ≡ length (word_lem text.now) }
{
    let mut n = 0;
    while n < text.len() && text[n] != b' ' {
        n += 1;
    }
    n
}

// What stands before the first blank.
#[tactic(auto, using(crate::proofs::Fronts::take_word, crate::proofs::Fronts::length_word))]
pub(crate) fn word(text: &[u8]) -> &[u8]
    ensures { result.now ≡ word_lem text.now }
{
    &text[..word_length(text)]
}

// What stands behind the first word and the blanks after it.
#[tactic(auto, using(crate::proofs::Fronts::length_word))]
pub(crate) fn behind_word(text: &[u8]) -> &[u8]
    ensures { result.now ≡ behind_word_lem text.now }
{
    without_blanks(&text[word_length(text)..])
}

/// The name on a statement, empty where it has none.
pub fn name_of(card: &[u8]) -> &[u8]
    ensures { result.now ≡ name_of_lem card.now }
{
    word(body(card))
}

/// The operation of a statement.
pub fn operation_of(card: &[u8]) -> Operation
    ensures { result ≡ operation_of_lem card.now }
{
    let operation = word(behind_word(body(card)));
    if operation == b"JOB".as_slice() {
        Operation::Job
    } else if operation == b"EXEC".as_slice() {
        Operation::Exec
    } else if operation == b"DD".as_slice() {
        Operation::Dd
    } else {
        Operation::Other
    }
}

/// Whether a text is a statement's name: 1 to 8 bytes of A to Z, 0 to 9, `@`, `#` and `$`, the first
/// no digit.
pub fn is_statement_name(name: &[u8]) -> bool
    ensures { result ≡ is_statement_name_lem name.now }
{
    read_name(name).is_ok() && !name[0].is_ascii_digit()
}

// Whether a string in apostrophes is open at the end of a text.
fn ends_quoted(text: &[u8]) -> bool
    ensures { result ≡ ends_quoted_lem false text.now }
{
    let mut quoted = false;
    for b in text {
        if *b == b'\'' {
            quoted = !quoted;
        }
    }
    quoted
}

fn field_length(text: &[u8]) -> usize
    ensures { result ≡ length (field_in false text.now) }
{
    let mut quoted = false;
    let mut n = 0;
    while n < text.len() && (quoted || text[n] != b' ') {
        if text[n] == b'\'' {
            quoted = !quoted;
        }
        n += 1;
    }
    n
}

// What stands before the first blank outside apostrophes.
#[tactic(auto, using(crate::proofs::Fronts::take_field, crate::proofs::Fronts::length_field))]
fn field(text: &[u8]) -> &[u8]
    ensures { result.now ≡ field_in false text.now }
{
    &text[..field_length(text)]
}

// The operand field of the first card of a statement.
pub(crate) fn first_field(card: &[u8]) -> &[u8]
    ensures { result.now ≡ first_field_lem card.now }
{
    field(behind_word(behind_word(body(card))))
}

// `//`, a blank in column 3, and operands that begin in columns 4 to 16.
pub(crate) fn is_continuation(card: &[u8]) -> bool
    ensures { result ≡ is_continuation_lem card.now }
{
    let body = body(card);
    let rest = without_blanks(body);
    if rest.len() > body.len() {
        return false;
    }
    let blanks = body.len() - rest.len();
    card.starts_with(b"//") && !rest.is_empty() && blanks >= 1 && blanks <= BLANKS_MOST
}

// The operand field of a card that continues a statement.
pub(crate) fn next_field(card: &[u8]) -> &[u8]
    ensures { result.now ≡ next_field_lem card.now }
{
    field(without_blanks(body(card)))
}

fn ends_with_comma(field: &[u8]) -> bool
    ensures { result ≡ ends_with_comma_lem field.now }
{
    match field {
        [.., last] => *last == b',',
        [] => false,
    }
}

// Whether a continuation has to follow a field.
pub(crate) fn is_continued(field: &[u8]) -> bool
    ensures { result ≡ is_continued_lem field.now }
{
    ends_with_comma(field) && !ends_quoted(field)
}

// Whether a field has a string that does not end.
pub(crate) fn is_cut(field: &[u8]) -> bool
    ensures { result ≡ ends_quoted_lem false field.now }
{
    ends_quoted(field)
}
