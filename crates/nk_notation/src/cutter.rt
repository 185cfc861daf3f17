//! A text that is cut into lexemes byte by byte.
ghost use Rattle.std.specs.Prelude.{◌≡◌, ◌<◌, ◌≤◌, ◌∷◌, ◌++◌, [], List, ℕ, true, drop, length, map, take, take_while, IfErr, IfOk, OnOk};
ghost use Rattle.nk_lex.specs.Classes.{is_name_byte, is_name_start};
ghost use Rattle.nk_notation.specs.Cutting.{count_taken, is_held, lexemes_left};
ghost use Rattle.nk_notation.specs.Lexemes.{Byte, TextLexeme, Word, begins_word, is_run_byte, lexemes_of, longest_word};
ghost use Rattle.nk_notation.specs.Translation.{TranslationGoesOn, nothing};

use crate::notation::Notation;
use nk_number_forms::{Stop, is_digit};
use std::alloc::{AllocFailed, Global};

/// How many bytes a word has at most.
const LONGEST_WORD: usize = 64;

/// What is open between two bytes.
#[derive(Clone, Copy)]
pub(crate) enum Open {
    /// Nothing.
    Between,
    /// A word; its bytes are held.
    Word,
    /// A run that is too long for a word.
    Long,
    /// A comment.
    Comment,
}

/// Cuts a text into lexemes byte by byte, and hands each lexeme on as soon as it is complete. No more than a word is held.
#[derive(Drop)]
pub(crate) struct Cutter<N: Notation> {
    notation: N,
    state: Open,
    held: Vec<u8>,
    ghost holds: { is_held state held.items ≡ true },
}

impl<N: Notation> Cutter<N> {
    /// Before the first byte of a text.
    pub(crate) fn new(alloc: Global, notation: N) -> Cutter<N>
        ensures left { (more : List ℕ)
            → lexemes_left result.state result.held.items more ≡ lexemes_left Open.Between [] more }
        ensures notation { result.notation ≡ notation }
    {
        Cutter {
            notation,
            state: Open::Between,
            held: Vec::new(alloc),
        }
    }
}

impl<N: Notation> Cutter<N> {
    /// Takes the front of the bytes that come next, and says how many they are: a word that stands whole at the front, else one byte.
    /// What they complete goes to `out`.
    #[inline(always)]
    pub(crate) fn take_front(&mut self, out: &mut Vec<u8>, bytes: &[u8]) -> Result<usize, Stop>
        requires some { 0 < length bytes.now }
        ensures some { IfOk result (λ n. 0 < n) }
        ensures within { IfOk result (λ n. n ≤ length bytes.now) }
        ensures goes_on { (more : List ℕ) → TranslationGoesOn result
            (N.made self.old.notation
            (lexemes_left self.old.state self.old.held.items (bytes.now ++ more)))
            (N.made self.new.notation
            (lexemes_left self.new.state self.new.held.items
            (drop (count_taken result) bytes.now ++ more)))
            out.old.items out.new.items }
    {
        match self.state {
            Open::Between => self.take_lexeme(out, bytes),
            _ => self.take_first(out, bytes),
        }
    }

    /// Takes the front of the bytes that come next, where nothing is open, and says how many they are.
    #[inline(always)]
    fn take_lexeme(&mut self, out: &mut Vec<u8>, bytes: &[u8]) -> Result<usize, Stop>
        requires some { 0 < length bytes.now }
        requires between { self.old.state ≡ Open.Between }
        ensures some { IfOk result (λ n. 0 < n) }
        ensures within { IfOk result (λ n. n ≤ length bytes.now) }
        ensures goes_on { (more : List ℕ)
            → TranslationGoesOn result (N.made self.old.notation (lexemes_of (bytes.now ++ more)))
            (N.made self.new.notation
            (lexemes_left self.new.state self.new.held.items
            (drop (count_taken result) bytes.now ++ more)))
            out.old.items out.new.items }
    {
        let count = word_length(bytes);
        if count == 0 {
            return self.begin_first(out, bytes);
        }
        match self.notation.word(out, &bytes[..count]) {
            Ok(()) => Ok(count),
            Err(stop) => Err(stop),
        }
    }

    /// Takes the first byte where nothing is open.
    #[inline(always)]
    fn begin_first(&mut self, out: &mut Vec<u8>, bytes: &[u8]) -> Result<usize, Stop>
        requires some { 0 < length bytes.now }
        requires between { self.old.state ≡ Open.Between }
        ensures some { IfOk result (λ n. 0 < n) }
        ensures within { IfOk result (λ n. n ≤ length bytes.now) }
        ensures goes_on { (more : List ℕ)
            → TranslationGoesOn result (N.made self.old.notation (lexemes_of (bytes.now ++ more)))
            (N.made self.new.notation
            (lexemes_left self.new.state self.new.held.items
            (drop (count_taken result) bytes.now ++ more)))
            out.old.items out.new.items }
    {
        match self.begin(out, bytes[0]) {
            Ok(()) => Ok(1),
            Err(stop) => Err(stop),
        }
    }

    /// Takes the first byte.
    fn take_first(&mut self, out: &mut Vec<u8>, bytes: &[u8]) -> Result<usize, Stop>
        requires some { 0 < length bytes.now }
        ensures some { IfOk result (λ n. 0 < n) }
        ensures within { IfOk result (λ n. n ≤ length bytes.now) }
        ensures goes_on { (more : List ℕ) → TranslationGoesOn result
            (N.made self.old.notation
            (lexemes_left self.old.state self.old.held.items (bytes.now ++ more)))
            (N.made self.new.notation
            (lexemes_left self.new.state self.new.held.items
            (drop (count_taken result) bytes.now ++ more)))
            out.old.items out.new.items }
    {
        match self.take(out, bytes[0]) {
            Ok(()) => Ok(1),
            Err(stop) => Err(stop),
        }
    }

    /// Takes the next byte of the text. What it completes goes to `out`.
    fn take(&mut self, out: &mut Vec<u8>, byte: u8) -> Result<(), Stop>
        ensures { (more : List ℕ) → TranslationGoesOn result
            (N.made self.old.notation
            (lexemes_left self.old.state self.old.held.items (byte ∷ more)))
            (N.made self.new.notation
            (lexemes_left self.new.state self.new.held.items more)) out.old.items
            out.new.items }
    {
        match self.state {
            Open::Between => self.begin(out, byte),
            Open::Word => self.go_on(out, byte),
            Open::Long if is_run_byte(byte) => self.notation.byte(out, byte),
            Open::Long => {
                self.state = Open::Between;
                self.begin(out, byte)
            }
            Open::Comment if byte == b'\n' => {
                self.state = Open::Between;
                self.notation.byte(out, byte)
            }
            Open::Comment => self.notation.note(out, byte),
        }
    }

    /// Takes the next byte of the text, where nothing is open.
    #[inline(always)]
    fn begin(&mut self, out: &mut Vec<u8>, byte: u8) -> Result<(), Stop>
        requires between { self.old.state ≡ Open.Between }
        ensures { (more : List ℕ)
            → TranslationGoesOn result (N.made self.old.notation (lexemes_of (byte ∷ more)))
            (N.made self.new.notation
            (lexemes_left self.new.state self.new.held.items more)) out.old.items
            out.new.items }
    {
        if byte == b'#' {
            self.state = Open::Comment;
            return self.notation.note(out, byte);
        }
        if begins_word(byte) {
            return self.begin_word(byte);
        }
        self.notation.byte(out, byte)
    }

    /// Holds the first byte of a word.
    fn begin_word(&mut self, byte: u8) -> Result<(), Stop>
        requires between { self.old.state ≡ Open.Between }
        requires begins { begins_word byte ≡ true }
        ensures same { self.new.notation ≡ self.old.notation }
        ensures word { OnOk result
            ((self.new.state ≡ Open.Word) × (self.new.held.items ≡ byte ∷ [])) }
        ensures err { IfErr result (λ e. e ≡ Stop.NoMemory) }
    {
        match self.held.push(byte) {
            Ok(()) => {
                self.state = Open::Word;
                Ok(())
            }
            Err(AllocFailed { .. }) => Err(Stop::NoMemory),
        }
    }

    /// Takes the next byte where a word is open.
    fn go_on(&mut self, out: &mut Vec<u8>, byte: u8) -> Result<(), Stop>
        requires word { self.old.state ≡ Open.Word }
        ensures { (more : List ℕ)
            → TranslationGoesOn result
            (N.made self.old.notation (lexemes_of (self.old.held.items ++ byte ∷ more)))
            (N.made self.new.notation
            (lexemes_left self.new.state self.new.held.items more)) out.old.items
            out.new.items }
    {
        if !is_run_byte(byte) {
            return match self.end_word(out) {
                Ok(()) => self.begin(out, byte),
                Err(stop) => Err(stop),
            };
        }
        if self.held.len() < LONGEST_WORD {
            return self.hold(byte);
        }
        match self.break_word(out) {
            Ok(()) => self.notation.byte(out, byte),
            Err(stop) => Err(stop),
        }
    }

    /// Holds one more byte of a word.
    fn hold(&mut self, byte: u8) -> Result<(), Stop>
        requires word { self.old.state ≡ Open.Word }
        requires room { length self.old.held.items < longest_word }
        requires run { is_run_byte byte ≡ true }
        ensures same { self.new.notation ≡ self.old.notation }
        ensures word { self.new.state ≡ Open.Word }
        ensures held { OnOk result (self.new.held.items ≡ self.old.held.items ++ byte ∷ []) }
        ensures err { IfErr result (λ e. e ≡ Stop.NoMemory) }
    {
        match self.held.push(byte) {
            Ok(()) => Ok(()),
            Err(AllocFailed { .. }) => Err(Stop::NoMemory),
        }
    }

    /// Hands the word on that is held.
    fn end_word(&mut self, out: &mut Vec<u8>) -> Result<(), Stop>
        requires word { self.old.state ≡ Open.Word }
        ensures between { self.new.state ≡ Open.Between }
        ensures word { (ls : List TextLexeme)
            → TranslationGoesOn result (N.made self.old.notation (Word self.old.held.items ∷ ls))
            (N.made self.new.notation ls) out.old.items out.new.items }
    {
        let done = self.notation.word(out, &self.held);
        self.held.clear();
        self.state = Open::Between;
        done
    }

    /// Hands the bytes on that are held, each for itself.
    fn break_word(&mut self, out: &mut Vec<u8>) -> Result<(), Stop>
        requires word { self.old.state ≡ Open.Word }
        ensures long { self.new.state ≡ Open.Long }
        ensures bytes { (ls : List TextLexeme)
            → TranslationGoesOn result
            (N.made self.old.notation (map Byte self.old.held.items ++ ls))
            (N.made self.new.notation ls) out.old.items out.new.items }
    {
        let done = bytes(&mut self.notation, out, &self.held);
        self.held.clear();
        self.state = Open::Long;
        done
    }

    /// Takes the end of the text.
    pub(crate) fn end(&mut self, out: &mut Vec<u8>) -> Result<(), Stop>
        ensures { TranslationGoesOn result
            (N.made self.old.notation (lexemes_left self.old.state self.old.held.items [])) nothing
            out.old.items out.new.items }
    {
        match self.state {
            Open::Word => self.end_with_word(out),
            _ => self.notation.end(out),
        }
    }

    /// Takes the end of the text, where a word is open.
    fn end_with_word(&mut self, out: &mut Vec<u8>) -> Result<(), Stop>
        requires word { self.old.state ≡ Open.Word }
        ensures { TranslationGoesOn result
            (N.made self.old.notation (lexemes_of (self.old.held.items ++ []))) nothing
            out.old.items out.new.items }
    {
        match self.end_word(out) {
            Ok(()) => self.notation.end(out),
            Err(stop) => Err(stop),
        }
    }
}

/// Hands bytes on, each for itself.
fn bytes<N: Notation>(notation: &mut N, out: &mut Vec<u8>, text: &[u8]) -> Result<(), Stop>
    ensures { (ls : List TextLexeme)
        → TranslationGoesOn result (N.made notation.old (map Byte text.now ++ ls))
        (N.made notation.new ls)
        out.old.items out.new.items }
{
    for byte in text {
        notation.byte(out, *byte)?;
    }
    Ok(())
}

/// How many bytes the word has that begins the bytes and ends before the last of them; 0 says nothing. It is 0 where there is no such word, or a
/// longer one than a word may be; no clause says so.
#[inline(always)]
fn word_length(bytes: &[u8]) -> usize
    ensures within { result ≤ length bytes.now }
    ensures word { 0 < result → (more : List ℕ) →
        lexemes_of (bytes.now ++ more)
        ≡ Word (take result bytes.now) ∷ lexemes_of (drop result bytes.now ++ more) }
{
    match bytes {
        [first, rest @ ..] if begins_word(*first) => {
            let count = run_length(rest) + 1;
            if count < bytes.len() && count <= LONGEST_WORD {
                count
            } else {
                0
            }
        }
        _ => 0,
    }
}

/// How many bytes of a run begin the bytes.
#[inline(always)]
fn run_length(bytes: &[u8]) -> usize
    ensures length { result ≡ length (take_while is_run_byte bytes.now) }
    ensures within { result ≤ length bytes.now }
{
    bytes.iter().take_while(|b| is_run_byte(**b)).count()
}

/// Whether the byte belongs to a run. The bytes from `.` to `:` are `.`, `/`, the digits and `:`.
fn is_run_byte(byte: u8) -> bool
    ensures { result ≡ is_run_byte byte }
{
    (b'.' <= byte && byte <= b':') || is_name_start(byte)
}

/// Whether the byte belongs to a name.
pub(crate) fn is_name_byte(byte: u8) -> bool
    ensures { result ≡ is_name_byte byte }
{
    is_name_start(byte) || is_digit(byte)
}

/// Whether a name may begin with the byte.
pub(crate) fn is_name_start(byte: u8) -> bool
    ensures { result ≡ is_name_start byte }
{
    (b'a' <= byte && byte <= b'z') || (b'A' <= byte && byte <= b'Z') || byte == b'_'
}

/// Whether a word may begin with the byte.
fn begins_word(byte: u8) -> bool
    ensures { result ≡ begins_word byte }
{
    is_run_byte(byte) || byte == b'='
}
