//! Addresses become numbers.
ghost use Rattle.std.specs.Prelude.{◌≡◌, ◌+◌, ◌-◌, ◌<◌, ◌≤◌, ◌^◌, ◌++◌, ◌==◌, ◌&&◌, bytes_eq, codes, count_by, nat_lt, length, decimal, take, drop, not, Ok, Err, Option, IfErr, OnOk};
ghost use Rattle.std.specs.List.{list_all};
ghost use Rattle.nk_number_forms.specs.Forms.{address_of, has_dots, has_ones_after, place_of_dots};
ghost use Rattle.nk_notation.specs.Inward.{after_byte, after_word, both_atoms, inward, inward_bytes_sound, is_tables, kind_after, kind_beyond, place_after, plain_in, prefix_in, prefix_with, range_in, run_in, size_at, size_of_kind, slash_in, small_size, spelled, text_start, word_in};
ghost use Rattle.nk_number_forms.specs.Numbers.{number_within};
ghost use Rattle.nk_notation.specs.Translation.{Puts};

use crate::context::TextKind;
use crate::notation::Notation;
use nk_number_forms::{
    Atom, Cause, Fault, Stop, WordStop, address_of, around_first, atom_of, block_size, colons,
    dropped, first_of, is_dotted, is_white, last_of, number_within, place_of, place_of_dots, put,
    put_number,
};
use std::alloc::{AllocError, AllocFailed};

/// What is known of the text before a lexeme.
#[derive(Clone, Copy)]
pub struct Inward {
    line: u64,
    kind: TextKind,
    place: Place,
    last: u8,
}

/// Where a size of a field may stand.
#[derive(Clone, Copy)]
pub(crate) enum Place {
    /// After none of these.
    Elsewhere,
    /// After the word `field`.
    Field,
    /// After `field` and a name.
    Name,
}

impl Inward {
    /// Before the first byte of a text.
    pub fn new() -> Inward
        ensures { result ≡ text_start }
    {
        Inward {
            line: 1,
            kind: TextKind::Unknown,
            place: Place::Elsewhere,
            last: 0,
        }
    }
}

impl Notation for Inward {
    ghost made = { inward };

    ghost sound = { inward_bytes_sound };

    fn word(&mut self, out: &mut Vec<u8>, text: &[u8]) -> Result<(), Stop> {
        match self.put_word(out, text) {
            Ok(()) => {
                self.pass_word(text);
                Ok(())
            }
            Err(WordStop::NoMemory) => Err(Stop::NoMemory),
            Err(WordStop::Refused(cause)) => {
                let fault = Fault {
                    line: self.line,
                    cause,
                };
                match put(out, text) {
                    Ok(()) => Err(Stop::Refused(fault)),
                    Err(AllocError) => Err(Stop::NoMemory),
                }
            }
        }
    }

    #[inline(always)]
    fn byte(&mut self, out: &mut Vec<u8>, byte: u8) -> Result<(), Stop> {
        match out.push(byte) {
            Ok(()) => {
                self.pass_byte(byte);
                Ok(())
            }
            Err(AllocFailed { .. }) => Err(Stop::NoMemory),
        }
    }

    fn note(&mut self, out: &mut Vec<u8>, byte: u8) -> Result<(), Stop> {
        match out.push(byte) {
            Ok(()) => Ok(()),
            Err(AllocFailed { .. }) => Err(Stop::NoMemory),
        }
    }

    fn end(&mut self, _out: &mut Vec<u8>) -> Result<(), Stop> {
        Ok(())
    }
}

impl Inward {
    /// Goes past a word.
    #[tactic(auto, unfolding(crate::specs::Inward::after_word))]
    fn pass_word(&mut self, text: &[u8])
        ensures { self.new ≡ after_word self.old text.now }
    {
        self.kind = kind_after(self.kind, text);
        self.place = place_after(self.place, text);
        self.last = last_of(text);
    }

    /// Goes past a byte outside words.
    #[tactic(auto, unfolding(crate::specs::Inward::after_byte))]
    fn pass_byte(&mut self, byte: u8)
        ensures { self.new ≡ after_byte self.old byte }
    {
        if byte == b'\n' {
            self.line = self.line.saturating_add(1);
        }
        self.kind = kind_beyond(self.kind, byte);
        if !is_white(byte) {
            self.place = Place::Elsewhere;
        }
        self.last = byte;
    }

    /// Puts what a word is written as at the end.
    #[tactic(auto, unfolding(crate::specs::Inward::word_in))]
    fn put_word(&self, out: &mut Vec<u8>, text: &[u8]) -> Result<(), WordStop>
        ensures { Puts result (word_in self.now text.now) out.old.items out.new.items }
    {
        match size_at(self.place, text) {
            Some(size) => put_decimal(out, size),
            None => self.put_plain(out, text),
        }
    }

    /// Puts what a word is written as at the end, where no size is due.
    fn put_plain(&self, out: &mut Vec<u8>, text: &[u8]) -> Result<(), WordStop>
        ensures { Puts result (plain_in self.now text.now) out.old.items out.new.items }
    {
        if is_plain(text) {
            return put_bytes(out, text);
        }
        self.put_formed(out, text)
    }

    /// Puts what a word is written as at the end, where no size is due and the word may have a form.
    #[tactic(auto, unfolding(crate::specs::Inward::plain_in, nk_number_forms::specs::Forms::first_byte))]
    fn put_formed(&self, out: &mut Vec<u8>, text: &[u8]) -> Result<(), WordStop>
        ensures { Puts result (plain_in self.now text.now) out.old.items out.new.items }
    {
        let tables = is_tables(self.kind);
        match text {
            [b'=', run @ ..] => put_run(out, tables, self.last != b':', b"=", run),
            _ => put_run(out, tables, false, b"", text),
        }
    }
}

/// The largest value of a field of the kind that a word stands for, where a size is due.
#[tactic(auto, unfolding(crate::specs::Inward::size_at))]
fn size_at(place: Place, text: &[u8]) -> Option<u64>
    ensures { result ≡ size_at place text.now }
{
    match place {
        Place::Name => size_of_kind(text),
        _ => None,
    }
}

/// The largest value of a field of the kind that a word stands for.
#[inline(never)]
#[tactic(auto, unfolding(crate::specs::Inward::size_of_kind))]
fn size_of_kind(text: &[u8]) -> Option<u64>
    ensures { result ≡ size_of_kind text.now }
{
    if text == b"ipv4".as_slice() {
        Some(4_294_967_295)
    } else if text == b"mac".as_slice() {
        Some(281_474_976_710_655)
    } else if text == b"ethertype".as_slice() || text == b"port".as_slice() {
        Some(65_535)
    } else {
        small_size(text)
    }
}

/// The largest value of a field of the kind that a word stands for, of the kinds of fewer than 16 binary digits.
#[tactic(auto, unfolding(crate::specs::Inward::small_size))]
pub(crate) fn small_size(text: &[u8]) -> Option<u64>
    ensures { result ≡ small_size text.now }
{
    if text == b"vlan".as_slice() {
        Some(4095)
    } else if text == b"byte".as_slice() {
        Some(255)
    } else if text == b"bit".as_slice() {
        Some(1)
    } else {
        None
    }
}

/// Whether it is a table text.
#[tactic(auto, unfolding(crate::specs::Inward::is_tables))]
pub(crate) fn is_tables(kind: TextKind) -> bool
    ensures { result ≡ is_tables kind }
{
    match kind {
        TextKind::Tables => true,
        _ => false,
    }
}

/// The kind of a text once a word of it was read.
#[tactic(auto, unfolding(crate::specs::Inward::kind_after))]
pub(crate) fn kind_after(kind: TextKind, text: &[u8]) -> TextKind
    ensures { result ≡ kind_after kind text.now }
{
    match kind {
        TextKind::Unknown if text == b"tables".as_slice() => TextKind::Tables,
        TextKind::Unknown => TextKind::Other,
        kind => kind,
    }
}

/// The kind of a text once a byte outside words was read.
#[tactic(auto, unfolding(crate::specs::Inward::kind_beyond))]
pub(crate) fn kind_beyond(kind: TextKind, byte: u8) -> TextKind
    ensures { result ≡ kind_beyond kind byte }
{
    match kind {
        TextKind::Unknown if !is_white(byte) => TextKind::Other,
        kind => kind,
    }
}

/// The place after a word.
#[tactic(auto, unfolding(crate::specs::Inward::place_after, crate::specs::Inward::name_place))]
fn place_after(place: Place, text: &[u8]) -> Place
    ensures { result ≡ place_after place text.now }
{
    if is_field(text) {
        return Place::Field;
    }
    match place {
        Place::Field if first_of(text) != b'=' => Place::Name,
        _ => Place::Elsewhere,
    }
}

/// Whether it is the word `field`.
fn is_field(text: &[u8]) -> bool
    ensures { result ≡ bytes_eq text.now (codes "field") }
{
    text.len() == 5 && text == b"field".as_slice()
}

/// Puts a run of bytes at the end, with these bytes before it, with each address as a number.
#[tactic(auto, using(crate::proofs::AddressRuns::address_run))]
fn put_run(
    out: &mut Vec<u8>,
    tables: bool,
    tests: bool,
    lead: &[u8],
    run: &[u8],
) -> Result<(), WordStop>
    ensures { Puts result (run_in tables tests lead.now run.now) out.old.items out.new.items }
{
    match address_of(run) {
        Some(address) => put_led(out, lead, address),
        None => put_other(out, tables, tests, lead, run),
    }
}

/// Puts a number at the end in decimal digits, with these bytes before it.
fn put_led(out: &mut Vec<u8>, lead: &[u8], number: u64) -> Result<(), WordStop>
    ensures { Puts result (Ok (lead.now ++ decimal number)) out.old.items out.new.items }
{
    put_bytes(out, lead)?;
    put_decimal(out, number)
}

/// Puts a run of bytes at the end, with these bytes before it, with each address as a number. It isn't tried first whether the
/// run is an address.
#[inline(never)]
#[tactic(auto, unfolding(crate::specs::Inward::run_in))]
fn put_other(
    out: &mut Vec<u8>,
    tables: bool,
    tests: bool,
    lead: &[u8],
    run: &[u8],
) -> Result<(), WordStop>
    ensures { Puts result (run_in tables tests lead.now run.now) out.old.items out.new.items }
{
    let dots = place_of_dots(run);
    if dots < run.len() {
        return put_range(out, lead, run, dots);
    }
    if place_of(b'/', run) < run.len() {
        return put_slash(out, tables, tests, lead, run);
    }
    put_both(out, lead, atom_of(run), run, b"", Atom::Kept, b"")
}

/// Puts a run with `..` at this place at the end, with these bytes before it, with each address as a number.
#[tactic(auto, unfolding(crate::specs::Inward::range_in))]
fn put_range(out: &mut Vec<u8>, lead: &[u8], run: &[u8], dots: usize) -> Result<(), WordStop>
    requires dots { dots ≡ place_of_dots run.now }
    requires within { dots < length run.now }
    ensures { Puts result (range_in lead.now run.now) out.old.items out.new.items }
{
    let low = &run[..dots];
    let high = dropped(run, dots + 2);
    if place_of_dots(high) < high.len() {
        put_bytes(out, lead)?;
        return put_bytes(out, run);
    }
    put_both(out, lead, atom_of(low), low, b"..", atom_of(high), high)
}

/// Puts what a run with a `/` is written as at the end, with these bytes before it.
#[tactic(auto, unfolding(crate::specs::Inward::slash_in, crate::specs::Inward::prefix_with))]
fn put_slash(
    out: &mut Vec<u8>,
    tables: bool,
    tests: bool,
    lead: &[u8],
    run: &[u8],
) -> Result<(), WordStop>
    ensures { Puts result (slash_in tables tests lead.now run.now) out.old.items out.new.items }
{
    let (front, length) = around_first(b'/', run);
    if !is_dotted(front) {
        return put_both(out, lead, atom_of(front), front, b"/", Atom::Kept, length);
    }
    let Some(address) = address_of(front) else {
        return Err(WordStop::Refused(Cause::Address));
    };
    let Some(digits) = number_within(32, length) else {
        return Err(WordStop::Refused(Cause::Length));
    };
    put_prefix(out, tables, tests, lead, length, address, digits)
}

/// Puts a prefix at the end, as it stays in a table text, and as the range of its addresses where it is tested for.
#[tactic(auto, unfolding(crate::specs::Inward::prefix_in))]
fn put_prefix(
    out: &mut Vec<u8>,
    tables: bool,
    tests: bool,
    lead: &[u8],
    length: &[u8],
    address: u64,
    digits: u64,
) -> Result<(), WordStop>
    requires address { address < 2 ^ 32 }
    requires digits { digits ≤ 32 }
    ensures { Puts result (prefix_in tables tests lead.now length.now address digits) out.old.items
        out.new.items }
{
    let size = block_size(digits);
    if address % size != 0 {
        return Err(WordStop::Refused(Cause::Ones));
    }
    if tables {
        put_bytes(out, lead)?;
        put_decimal(out, address)?;
        put_bytes(out, b"/")?;
        return put_bytes(out, length);
    }
    if !tests {
        return Err(WordStop::Refused(Cause::Untested));
    }
    put_bytes(out, b" in ")?;
    put_decimal(out, address)?;
    put_bytes(out, b"..")?;
    put_decimal(out, address + (size - 1))
}

/// Puts two atoms at the end, with these bytes before them and between them.
#[tactic(auto, unfolding(crate::specs::Inward::both_atoms))]
fn put_both(
    out: &mut Vec<u8>,
    lead: &[u8],
    first: Atom,
    first_text: &[u8],
    between: &[u8],
    second: Atom,
    second_text: &[u8],
) -> Result<(), WordStop>
    ensures { Puts result (both_atoms lead.now first first_text.now between.now second
        second_text.now) out.old.items out.new.items }
{
    if let Atom::Faulty(cause) = first {
        return Err(WordStop::Refused(cause));
    }
    if let Atom::Faulty(cause) = second {
        return Err(WordStop::Refused(cause));
    }
    put_bytes(out, lead)?;
    put_atom(out, first, first_text)?;
    put_bytes(out, between)?;
    put_atom(out, second, second_text)
}

/// Puts an atom at the end, as a number where it is one.
#[tactic(auto, unfolding(crate::specs::Inward::spelled))]
fn put_atom(out: &mut Vec<u8>, atom: Atom, text: &[u8]) -> Result<(), WordStop>
    ensures ok { OnOk result (out.new.items ≡ out.old.items ++ spelled atom text.now) }
    ensures err { IfErr result (λ e. e ≡ WordStop.NoMemory) }
{
    match atom {
        Atom::Number(number) => put_decimal(out, number),
        _ => put_bytes(out, text),
    }
}

/// Puts the bytes at the end.
fn put_bytes(out: &mut Vec<u8>, bytes: &[u8]) -> Result<(), WordStop>
    ensures ok { OnOk result (out.new.items ≡ out.old.items ++ bytes.now) }
    ensures err { IfErr result (λ e. e ≡ WordStop.NoMemory) }
{
    match put(out, bytes) {
        Ok(()) => Ok(()),
        Err(AllocError) => Err(WordStop::NoMemory),
    }
}

/// Puts a number at the end in decimal digits.
fn put_decimal(out: &mut Vec<u8>, number: u64) -> Result<(), WordStop>
    ensures ok { OnOk result (out.new.items ≡ out.old.items ++ decimal number) }
    ensures err { IfErr result (λ e. e ≡ WordStop.NoMemory) }
{
    match put_number(out, number) {
        Ok(()) => Ok(()),
        Err(AllocError) => Err(WordStop::NoMemory),
    }
}

/// Whether the word has none of the bytes that each form has: the `.` of IPv4 addresses and ranges, the `/` of prefixes, the two `:` of
/// hardware addresses and the `x` of hexadecimal numbers. Such a word is kept, whatever stands before it.
#[tactic(auto, using(crate::proofs::Plain::form_free))]
fn is_plain(text: &[u8]) -> bool
    ensures { result ≡ (list_all (λ b. not (b == 46) && not (b == 47) && not (b == 120)) text.now
        && nat_lt (count_by (λ b. b == 58) text.now) 2) }
{
    has_no_form_bytes(text) || (has_plain_bytes(text) && colons(text) < 2)
}

/// Whether the word has no `.`, `/`, `x` and `:`.
#[inline(always)]
fn has_no_form_bytes(text: &[u8]) -> bool
    ensures { result ≡ list_all
        (λ b. not (b == 46) && not (b == 47) && not (b == 120) && not (b == 58)) text.now }
{
    text.iter()
        .all(|b| *b != b'.' && *b != b'/' && *b != b'x' && *b != b':')
}

/// Whether the word has no `.`, `/` and `x`.
#[inline(always)]
fn has_plain_bytes(text: &[u8]) -> bool
    ensures { result ≡ list_all (λ b. not (b == 46) && not (b == 47) && not (b == 120)) text.now }
{
    text.iter().all(|b| *b != b'.' && *b != b'/' && *b != b'x')
}
