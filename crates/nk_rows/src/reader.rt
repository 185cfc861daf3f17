//! Reads the rows of a file, a line at a time.
use crate::row::{Calls, Fault, Pieces, Row, Wanted};
use crate::text::{Named, number_of, piece_of, put_word};
use std::alloc::{AllocError, Global};

/// Where the lines of a text go.
#[derive(Clone, Copy, PartialEq, Eq)]
enum Place {
    Nowhere,
    Named,
    Input,
    Out,
    Err,
}

/// What was read so far.
#[derive(Drop)]
struct Reader {
    alloc: Global,
    texts: Vec<Named>,
    rows: Vec<Row>,
    place: Place,
}

/// What a file says.
#[derive(Drop)]
pub(crate) struct RowFile {
    pub(crate) rows: Vec<Row>,
    /// The lines that are malformed, from 1, each passed over; then those at which a row begins that is malformed as a whole.
    pub(crate) malformed: Vec<u64>,
}

/// What a file says, unless memory runs out.
pub(crate) fn row_file_of(alloc: Global, file: &str) -> Result<RowFile, AllocError> {
    let mut reader = Reader {
        alloc,
        texts: Vec::new(alloc),
        rows: Vec::new(alloc),
        place: Place::Nowhere,
    };
    let mut malformed = Vec::new(alloc);
    let mut number = 0u64;
    for line in file.lines() {
        number = number.saturating_add(1);
        match reader.take(line, number) {
            Ok(()) => {}
            Err(Fault::Malformed) => malformed.push(number)?,
            Err(Fault::NoMemory) => return Err(AllocError),
        }
    }
    for row in reader.rows.iter() {
        if !row.is_formed() {
            malformed.push(row.line)?;
        }
    }
    Ok(RowFile {
        rows: reader.rows,
        malformed,
    })
}

impl Reader {
    /// Takes the line of this number.
    fn take(&mut self, line: &str, number: u64) -> Result<(), Fault> {
        if line.is_empty() || line.starts_with('#') {
            return Ok(());
        }
        if let Some(bytes) = piece_of(self.alloc, self.texts.as_slice(), line)? {
            return self.put(bytes.as_slice());
        }
        self.place = Place::Nowhere;
        if let Some(name) = line.strip_prefix("text ") {
            return self.begin_text(name);
        }
        if let Some(name) = line.strip_prefix("row ") {
            return self.begin_row(name, number);
        }
        match self.rows.last_mut() {
            Some(row) => {
                self.place = say(self.alloc, row, line)?;
                Ok(())
            }
            None => Err(Fault::Malformed),
        }
    }

    /// Begins a text. No text above has its name.
    fn begin_text(&mut self, name: &str) -> Result<(), Fault> {
        for named in self.texts.iter() {
            if named.name.as_str() == name {
                return Err(Fault::Malformed);
            }
        }
        let named = Named {
            name: String::from_str(self.alloc, name)?,
            text: Vec::new(self.alloc),
        };
        self.place = Place::Named;
        self.texts.push(named).map_err(|_| Fault::NoMemory)
    }

    /// Begins a row. No row above has its name.
    fn begin_row(&mut self, name: &str, number: u64) -> Result<(), Fault> {
        for row in self.rows.iter() {
            if row.name.as_str() == name {
                return Err(Fault::Malformed);
            }
        }
        let row = Row::new(self.alloc, name, number)?;
        self.rows.push(row).map_err(|_| Fault::NoMemory)
    }

    /// Puts bytes after the text that is being read.
    fn put(&mut self, bytes: &[u8]) -> Result<(), Fault> {
        if self.place == Place::Named {
            return match self.texts.last_mut() {
                Some(named) => Ok(named.text.extend_from_slice(bytes)?),
                None => Err(Fault::Malformed),
            };
        }
        match self.rows.last_mut() {
            Some(row) => put_of_row(row, self.place, bytes),
            None => Err(Fault::Malformed),
        }
    }
}

/// Puts bytes after a text of the row.
fn put_of_row(row: &mut Row, place: Place, bytes: &[u8]) -> Result<(), Fault> {
    if place == Place::Input {
        return put_of_text(&mut row.input, bytes);
    }
    match row.cuts.last_mut() {
        Some(cut) => put_of_wanted(cut, place, bytes),
        None => put_of_wanted(&mut row.whole, place, bytes),
    }
}

/// Puts bytes after a text that is wanted.
fn put_of_wanted(wanted: &mut Wanted, place: Place, bytes: &[u8]) -> Result<(), Fault> {
    match place {
        Place::Out => put_of_text(&mut wanted.out, bytes),
        Place::Err => put_of_text(&mut wanted.err, bytes),
        _ => Err(Fault::Malformed),
    }
}

/// Puts bytes after a text that has begun.
fn put_of_text(text: &mut Option<Vec<u8>>, bytes: &[u8]) -> Result<(), Fault> {
    match text {
        Some(text) => Ok(text.extend_from_slice(bytes)?),
        None => Err(Fault::Malformed),
    }
}

/// Takes a line of the row that is no piece of a text, and says where the text goes that follows.
fn say(alloc: Global, row: &mut Row, line: &str) -> Result<Place, Fault> {
    let (word, rest) = match line.split_once(' ') {
        Some(parts) => parts,
        None => (line, ""),
    };
    match (word.as_bytes(), rest.as_bytes()) {
        (b"at", _) => say_cuts(alloc, row, numbers_of(alloc, rest)?.as_slice())?,
        (b"status", _) | (b"out" | b"err", b"") => {
            return match row.cuts.last_mut() {
                Some(cut) => say_wanted(alloc, cut, word, rest),
                None => say_wanted(alloc, &mut row.whole, word, rest),
            };
        }
        _ if !row.cuts.is_empty() => return Err(Fault::Malformed),
        (b"in", b"") => {
            say_once(&mut row.input, Vec::new(alloc))?;
            return Ok(Place::Input);
        }
        (b"words", _) => say_once(&mut row.words, words_of(alloc, rest)?)?,
        (b"pieces", _) => say_once(&mut row.pieces, pieces_of(alloc, rest)?)?,
        (b"calls", _) => say_once(&mut row.calls, calls_of(alloc, rest)?)?,
        (b"else", _) => say_once(&mut row.elsewhere, number_of(rest)?)?,
        (b"ends", _) => say_once(&mut row.ends, ends_of(alloc, rest)?)?,
        (b"cut", b"") if !row.is_cut => row.is_cut = true,
        (b"each", b"call fails") if !row.fails_in_turn => row.fails_in_turn = true,
        _ => say_fails(alloc, row, word, rest)?,
    }
    Ok(Place::Nowhere)
}

/// Takes what is said once.
fn say_once<T: Drop>(said: &mut Option<T>, value: T) -> Result<(), Fault> {
    if said.is_some() {
        return Err(Fault::Malformed);
    }
    *said = Some(value);
    Ok(())
}

/// Takes what has to come: a status, or that the text of `out` or `err` follows.
fn say_wanted(alloc: Global, wanted: &mut Wanted, word: &str, rest: &str) -> Result<Place, Fault> {
    match word.as_bytes() {
        b"status" => {
            say_once(&mut wanted.status, number_of(rest)?)?;
            Ok(Place::Nowhere)
        }
        b"out" => {
            say_once(&mut wanted.out, Vec::new(alloc))?;
            Ok(Place::Out)
        }
        _ => {
            say_once(&mut wanted.err, Vec::new(alloc))?;
            Ok(Place::Err)
        }
    }
}

/// Takes the lengths of cuts of which something is said below. Of no cut it is said twice.
fn say_cuts(alloc: Global, row: &mut Row, lengths: &[u64]) -> Result<(), Fault> {
    let mut cuts = Wanted::new(Vec::new(alloc));
    for length in lengths {
        let is_told = row.cuts.iter().any(|cut| cut.lengths.contains(length));
        if is_told || cuts.lengths.contains(length) {
            return Err(Fault::Malformed);
        }
        cuts.lengths.push(*length).map_err(|_| Fault::NoMemory)?;
    }
    row.cuts.push(cuts).map_err(|_| Fault::NoMemory)
}

/// Takes the numbers of the calls that fail, each at least 1.
fn say_fails(alloc: Global, row: &mut Row, word: &str, rest: &str) -> Result<(), Fault> {
    let Some(numbers) = rest.strip_prefix("fails ") else {
        return Err(Fault::Malformed);
    };
    let numbers = numbers_of(alloc, numbers)?;
    let said = match word.as_bytes() {
        b"source" => &mut row.fails.source,
        b"out" => &mut row.fails.out,
        b"err" => &mut row.fails.err,
        _ => return Err(Fault::Malformed),
    };
    if !said.is_empty() || numbers.contains(&0) {
        return Err(Fault::Malformed);
    }
    *said = numbers;
    Ok(())
}

/// The words of a command.
fn words_of(alloc: Global, rest: &str) -> Result<Vec<String>, Fault> {
    let mut words = Vec::new(alloc);
    if rest.is_empty() {
        return Ok(words);
    }
    for word in rest.split(' ') {
        let mut bytes = Vec::new(alloc);
        if word.as_bytes() != b"\"\"".as_slice() {
            put_word(alloc, &mut bytes, word)?;
        }
        match String::from_utf8(bytes) {
            Ok(word) => words.push(word).map_err(|_| Fault::NoMemory)?,
            Err(_) => return Err(Fault::Malformed),
        }
    }
    Ok(words)
}

/// The numbers with a space between them.
fn numbers_of(alloc: Global, rest: &str) -> Result<Vec<u64>, Fault> {
    let mut numbers = Vec::new(alloc);
    for word in rest.split(' ') {
        numbers.push(number_of(word)?).map_err(|_| Fault::NoMemory)?;
    }
    Ok(numbers)
}

/// The sizes of the pieces, each at least 1.
fn pieces_of(alloc: Global, rest: &str) -> Result<Pieces, Fault> {
    match numbers_of(alloc, rest)?.as_slice() {
        [source, out, err] if *source > 0 && *out > 0 && *err > 0 => Ok(Pieces {
            source: *source,
            out: *out,
            err: *err,
        }),
        _ => Err(Fault::Malformed),
    }
}

/// The numbers of calls.
fn calls_of(alloc: Global, rest: &str) -> Result<Calls, Fault> {
    match numbers_of(alloc, rest)?.as_slice() {
        [source, out, err] => Ok(Calls {
            source: *source,
            out: *out,
            err: *err,
        }),
        _ => Err(Fault::Malformed),
    }
}

/// The statuses of cuts by their length: of each piece its status, so often as it says.
fn ends_of(alloc: Global, rest: &str) -> Result<Vec<u64>, Fault> {
    let mut ends = Vec::new(alloc);
    for piece in rest.split(' ') {
        let Some((status, times)) = piece.split_once('*') else {
            return Err(Fault::Malformed);
        };
        let status = number_of(status)?;
        let times = number_of(times)?;
        if times == 0 {
            return Err(Fault::Malformed);
        }
        for _ in 0..times {
            ends.push(status).map_err(|_| Fault::NoMemory)?;
        }
    }
    Ok(ends)
}
