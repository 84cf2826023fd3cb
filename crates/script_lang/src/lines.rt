// One line of a script.

ghost use Rattle.std.specs.Prelude.{◌≡◌, ◌≢◌, ◌⊎◌, ◌↔◌, ◌≤◌, ℕ, [], ◌∷◌, ◌++◌, List, length, MatchOption, IfOk, OnErr, IsTrue, ◌<◌};
ghost use Rattle.std.specs.Bool.{Decides};
ghost use Rattle.std.specs.List.{list_all};
ghost use Rattle.hex.specs.Hex.{is_hex_digit};
ghost use Rattle.script_lang.specs.Bodies.{Action as AnAction, Ending as AnEnding};
ghost use Rattle.clv_base.specs.declared.values.Value.{Value as ValueType};
ghost use Rattle.script_lang.specs.declared.lines.Verb.{Verb as AVerb};
ghost use Rattle.script_lang.specs.Reading.{Lacks, verb_text};
ghost use Rattle.script_lang.specs.Grammar.{IsNumber, IsComment, AreTwo, AreThree, HasOperands, AreDigits, IsText, AreKeyAndText, PutsText, has_no_upper, IsAction, IsEnding, IsLine, name_of, is_ascii};

use crate::actions::{Action, Ending};
use clv_base::kept::KeptOp;
use clv_base::ops::Op;
use clv_base::texts::ByteText;
use clv_base::values::Value;
use std::alloc::{AllocError, Global};
use std::str;

/// What a line says.
#[derive(Drop)]
pub enum Line {
    /// Nothing: an empty line, or a comment.
    Blank,
    /// A session begins.
    Session,
    /// A transaction begins.
    Begin,
    /// A line of the transaction.
    Act(Action),
    /// The transaction ends.
    End(Ending),
}

// The word that an action begins with.
#[derive(Clone, Copy, PartialEq, Eq)]
pub enum Verb {
    Get,
    Put,
    Bytes,
    Del,
    Scan,
    Move,
    Add,
    Back,
}

/// The number that a word is: decimal digits without a leading zero, below 2^64.
pub fn number_of(word: &[u8]) -> Option<u64>
    ensures { MatchOption result ((n : ℕ) → IsNumber word.now n → ⊥) (λ n. IsNumber word.now n) }
{
    if word.len() > 1 && word[0] == b'0' {
        return None;
    }
    if word.first() == Some(&b'+') {
        return None;
    }
    let Ok(text) = str::from_utf8(word) else {
        return None;
    };
    match text.parse::<u64>() {
        Ok(n) => Some(n),
        Err(_) => None,
    }
}

/// What stands round the first such byte.
pub fn parted(text: &[u8], byte: u8) -> Option<(&[u8], &[u8])>
    ensures { MatchOption result (Lacks byte text.now) (λ parts. (text.now ≡ parts.0.now ++ byte ∷ parts.1.now) × Lacks byte parts.0.now) }
{
    let at = text.iter().position(|b| *b == byte)?;
    Some((&text[..at], &text[at + 1..]))
}

fn is_ascii_text(bytes: &[u8]) -> bool
    ensures { result ≡ is_ascii bytes.now }
{
    bytes.iter().all(|b| *b < 128)
}

// The numbers that two words are, parted by one space.
fn two_numbers(text: &[u8]) -> Option<(u64, u64)>
    ensures { MatchOption result ((k v : ℕ) → AreTwo text.now k v → ⊥) (λ n. AreTwo text.now n.0 n.1) }
{
    let Some((first, second)) = parted(text, b' ') else {
        return None;
    };
    let Some(one) = number_of(first) else {
        return None;
    };
    let Some(two) = number_of(second) else {
        return None;
    };
    Some((one, two))
}

// The numbers that three words are.
fn three_numbers(text: &[u8]) -> Option<(u64, u64, u64)>
    ensures { MatchOption result ((k m n : ℕ) → AreThree text.now k m n → ⊥) (λ n. AreThree text.now n.0 n.1 n.2) }
{
    let Some((first, others)) = parted(text, b' ') else {
        return None;
    };
    let Some(one) = number_of(first) else {
        return None;
    };
    match two_numbers(others) {
        Some((two, three)) => Some((one, two, three)),
        None => None,
    }
}

fn verb_of(word: &[u8]) -> Option<Verb>
    ensures { MatchOption result ((verb : AVerb) → word.now ≢ verb_text verb) (λ verb. word.now ≡ verb_text verb) }
{
    if word == b"get".as_slice() {
        return Some(Verb::Get);
    }
    if word == b"put".as_slice() {
        return Some(Verb::Put);
    }
    if word == b"bytes".as_slice() {
        return Some(Verb::Bytes);
    }
    if word == b"del".as_slice() {
        return Some(Verb::Del);
    }
    if word == b"scan".as_slice() {
        return Some(Verb::Scan);
    }
    if word == b"move".as_slice() {
        return Some(Verb::Move);
    }
    if word == b"add".as_slice() {
        return Some(Verb::Add);
    }
    if word == b"back".as_slice() {
        return Some(Verb::Back);
    }
    None
}

// A scan's bounds don't fall.
fn scan_of(words: &[u8]) -> Option<Op>
    ensures { MatchOption result ((lo hi : ℕ) → AreTwo words.now lo hi → lo ≤ hi → ⊥) (λ op. (lo hi : ℕ) × (op ≡ Op.Scan lo hi) × AreTwo words.now lo hi × (lo ≤ hi)) }
{
    match two_numbers(words) {
        Some((low, high)) => {
            if low <= high {
                Some(Op::Scan(low, high))
            } else {
                None
            }
        }
        None => None,
    }
}

// A move's keys differ.
fn move_of(words: &[u8]) -> Option<Action>
    ensures { MatchOption result ((from to amount : ℕ) → AreThree words.now from to amount → from ≢ to → ⊥) (λ action. (from to amount : ℕ) × (action ≡ Action.Move from to amount) × AreThree words.now from to amount × (from ≢ to)) }
{
    match three_numbers(words) {
        Some((from, to, amount)) => {
            if from == to {
                None
            } else {
                Some(Action::Move { from, to, amount })
            }
        }
        None => None,
    }
}

// Whether no byte is a digit in upper case.
fn is_lower(word: &[u8]) -> bool
    ensures { result ≡ has_no_upper word.now }
{
    word.iter().all(|b| *b < 65 || *b > 70)
}

// Whether each byte is a digit.
fn has_digits_alone(word: &[u8]) -> bool
    ensures { result ≡ list_all is_hex_digit word.now }
{
    word.iter().all(|b| b.is_ascii_hexdigit())
}

// Whether a word is two digits a byte, of at most 200 bytes.
fn are_digits(word: &[u8]) -> bool
    ensures { Decides result ((bytes : List ℕ) × AreDigits word.now bytes) }
{
    if word.is_empty() || word.len() > 400 || word.len() % 2 != 0 {
        return false;
    }
    is_lower(word) && has_digits_alone(word)
}

// The text that a word spells: two digits a byte, or `-` for no byte. Only a word that spells one takes memory.
fn text_of(alloc: Global, word: &[u8]) -> Result<Option<ByteText>, AllocError>
    ensures ok { IfOk result (λ found. MatchOption found ((bytes : List ℕ) → IsText word.now bytes → ⊥) (λ bytes. IsText word.now bytes)) }
    ensures err { OnErr result ((bytes : List ℕ) × IsText word.now bytes) }
{
    if word == b"-".as_slice() {
        return Ok(Some(ByteText::new(alloc, &[])?));
    }
    if !are_digits(word) {
        return Ok(None);
    }
    match hex::decode(alloc, word) {
        Ok(bytes) => Ok(Some(ByteText::new(alloc, bytes.as_slice())?)),
        Err(_) => Err(AllocError),
    }
}

// A key, and the text that is put under it.
fn bytes_of(alloc: Global, words: &[u8]) -> Result<Option<Op>, AllocError>
    ensures ok { IfOk result (λ found. MatchOption found ((k : ℕ) (bytes : List ℕ) → AreKeyAndText words.now k bytes → ⊥) (λ op. (k : ℕ) × (bytes : List ℕ) × (op ≡ Op.Put k (ValueType.Bytes bytes)) × AreKeyAndText words.now k bytes)) }
    ensures err { OnErr result ((k : ℕ) × (bytes : List ℕ) × AreKeyAndText words.now k bytes) }
{
    let Some((first, second)) = parted(words, b' ') else {
        return Ok(None);
    };
    let Some(key) = number_of(first) else {
        return Ok(None);
    };
    match text_of(alloc, second)? {
        Some(text) => Ok(Some(Op::Put(key, Value::Bytes(text)))),
        None => Ok(None),
    }
}

// The action of a verb whose words are numbers.
fn with_numbers(verb: Verb, words: &[u8]) -> Option<Action>
    requires { verb ≢ AVerb.Bytes }
    ensures { MatchOption result ((action : AnAction) → name_of action ≡ verb_text verb → HasOperands words.now action → ⊥) (λ action. (name_of action ≡ verb_text verb) × HasOperands words.now action) }
{
    match verb {
        Verb::Get => match number_of(words) {
            Some(key) => Some(Action::Do(KeptOp::new(Op::Get(key)))),
            None => None,
        },
        Verb::Put => match two_numbers(words) {
            Some((key, value)) => Some(Action::Do(KeptOp::new(Op::Put(key, Value::Num(value))))),
            None => None,
        },
        Verb::Del => match number_of(words) {
            Some(key) => Some(Action::Do(KeptOp::new(Op::Del(key)))),
            None => None,
        },
        Verb::Scan => match scan_of(words) {
            Some(op) => Some(Action::Do(KeptOp::new(op))),
            None => None,
        },
        Verb::Move => move_of(words),
        Verb::Add => match two_numbers(words) {
            Some((key, by)) => Some(Action::Do(KeptOp::new(Op::Add(key, by)))),
            None => None,
        },
        Verb::Back => match number_of(words) {
            Some(number) => Some(Action::Back(number)),
            None => None,
        },
        Verb::Bytes => unreachable!(),
    }
}

// The action of a verb with these words behind it.
fn with_operands(alloc: Global, verb: Verb, words: &[u8]) -> Result<Option<Action>, AllocError>
    ensures ok { IfOk result (λ found. MatchOption found ((action : AnAction) → name_of action ≡ verb_text verb → HasOperands words.now action → ⊥) (λ action. (name_of action ≡ verb_text verb) × HasOperands words.now action)) }
    ensures err { OnErr result ((verb ≡ AVerb.Bytes) × (k : ℕ) × (bytes : List ℕ) × AreKeyAndText words.now k bytes) }
{
    match verb {
        Verb::Bytes => match bytes_of(alloc, words)? {
            Some(op) => Ok(Some(Action::Do(KeptOp::new(op)))),
            None => Ok(None),
        },
        other => Ok(with_numbers(other, words)),
    }
}

// The action that a line spells.
fn action_of(alloc: Global, bytes: &[u8]) -> Result<Option<Action>, AllocError>
    ensures ok { IfOk result (λ found. MatchOption found ((action : AnAction) → IsAction bytes.now action → ⊥) (λ action. IsAction bytes.now action)) }
    ensures err { OnErr result (PutsText bytes.now) }
{
    if bytes == b"save".as_slice() {
        return Ok(Some(Action::Save));
    }
    let Some((word, words)) = parted(bytes, b' ') else {
        return Ok(None);
    };
    let Some(verb) = verb_of(word) else {
        return Ok(None);
    };
    with_operands(alloc, verb, words)
}

fn ending_of(bytes: &[u8]) -> Option<Ending>
    ensures { MatchOption result ((ending : AnEnding) → IsEnding bytes.now ending → ⊥) (λ ending. IsEnding bytes.now ending) }
{
    if bytes == b"commit".as_slice() {
        return Some(Ending::Commit);
    }
    if bytes == b"abort".as_slice() {
        return Some(Ending::Abort);
    }
    None
}

/// Whether a line is empty or a comment.
pub fn is_blank(bytes: &[u8]) -> bool
    ensures { IsTrue result ↔ ((bytes.now ≡ []) ⊎ IsComment bytes.now) }
{
    match bytes {
        [] => true,
        [b'#', text @ ..] => is_ascii_text(text),
        _ => false,
    }
}

/// What a line says, if it is in the grammar at some place. Only a line that puts a text takes memory, and it is in the grammar.
pub fn line_of(alloc: Global, bytes: &[u8]) -> Result<Option<Line>, AllocError>
    ensures ok { IfOk result (λ found. MatchOption found ((line : Line) → IsLine bytes.now line → ⊥) (λ line. IsLine bytes.now line)) }
    ensures err { OnErr result (PutsText bytes.now) }
{
    if is_blank(bytes) {
        return Ok(Some(Line::Blank));
    }
    if bytes == b"session".as_slice() {
        return Ok(Some(Line::Session));
    }
    if bytes == b"begin".as_slice() {
        return Ok(Some(Line::Begin));
    }
    if let Some(ending) = ending_of(bytes) {
        return Ok(Some(Line::End(ending)));
    }
    match action_of(alloc, bytes)? {
        Some(action) => Ok(Some(Line::Act(action))),
        None => Ok(None),
    }
}
