//! A row: what a run is given, and what has to come of it.
use std::alloc::{AllocError, Global};

/// Why a line is not taken.
#[derive(Clone, Copy, Debug, PartialEq, Eq)]
pub(crate) enum Fault {
    /// There is not enough memory.
    NoMemory,
    /// The line is none.
    Malformed,
}

impl From<AllocError> for Fault {
    fn from(_: AllocError) -> Fault {
        Fault::NoMemory
    }
}

/// How many bytes a call of the source, of `out` and of `err` takes at most.
#[derive(Clone, Copy)]
pub(crate) struct Pieces {
    pub(crate) source: u64,
    pub(crate) out: u64,
    pub(crate) err: u64,
}

/// How many calls there are of the source, of `out` and of `err`.
#[derive(Clone, Copy, PartialEq, Eq)]
pub(crate) struct Calls {
    pub(crate) source: u64,
    pub(crate) out: u64,
    pub(crate) err: u64,
}

/// The numbers, from 1, of the calls that fail.
pub(crate) struct Fails {
    pub(crate) source: Vec<u64>,
    pub(crate) out: Vec<u64>,
    pub(crate) err: Vec<u64>,
}

impl Drop for Fails {
    fn drop(self) {
        let Self {
            source: _,
            out: _,
            err: _,
        } = self;
    }
}

impl Fails {
    /// No call fails.
    pub(crate) fn new(alloc: Global) -> Fails {
        Fails {
            source: Vec::new(alloc),
            out: Vec::new(alloc),
            err: Vec::new(alloc),
        }
    }
}

/// What has to come.
pub(crate) struct Wanted {
    /// The lengths of the cuts of which this is said; of the whole input no length is given.
    pub(crate) lengths: Vec<u64>,
    pub(crate) status: Option<u64>,
    pub(crate) out: Option<Vec<u8>>,
    pub(crate) err: Option<Vec<u8>>,
}

impl Drop for Wanted {
    fn drop(self) {
        let Self {
            lengths: _,
            status: _,
            out: _,
            err: _,
        } = self;
    }
}

impl Wanted {
    /// Nothing is said yet of these cuts.
    pub(crate) fn new(lengths: Vec<u64>) -> Wanted {
        Wanted {
            lengths,
            status: None,
            out: None,
            err: None,
        }
    }
}

/// The bytes of a text of which nothing may be said; then it is empty.
pub(crate) fn bytes_of(text: &Option<Vec<u8>>) -> &[u8] {
    match text {
        Some(bytes) => bytes.as_slice(),
        None => &[],
    }
}

/// A row of a file.
pub(crate) struct Row {
    pub(crate) name: String,
    /// The line at which it begins, from 1.
    pub(crate) line: u64,
    pub(crate) words: Option<Vec<String>>,
    pub(crate) input: Option<Vec<u8>>,
    pub(crate) pieces: Option<Pieces>,
    pub(crate) fails: Fails,
    pub(crate) whole: Wanted,
    pub(crate) calls: Option<Calls>,
    /// Whether it is also run with each call failing.
    pub(crate) fails_in_turn: bool,
    /// Whether it is also run with each cut.
    pub(crate) is_cut: bool,
    /// How each cut ends that isn't among those below.
    pub(crate) elsewhere: Option<u64>,
    /// The status with which each cut ends that isn't among those below, by the cut's length.
    pub(crate) ends: Option<Vec<u64>>,
    pub(crate) cuts: Vec<Wanted>,
}

impl Drop for Row {
    fn drop(self) {
        let Self {
            name: _,
            line: _,
            words: _,
            input: _,
            pieces: _,
            fails: _,
            whole: _,
            calls: _,
            fails_in_turn: _,
            is_cut: _,
            elsewhere: _,
            ends: _,
            cuts: _,
        } = self;
    }
}

impl Row {
    /// A row of which nothing is said yet.
    pub(crate) fn new(alloc: Global, name: &str, line: u64) -> Result<Row, AllocError> {
        Ok(Row {
            name: String::from_str(alloc, name)?,
            line,
            words: None,
            input: None,
            pieces: None,
            fails: Fails::new(alloc),
            whole: Wanted::new(Vec::new(alloc)),
            calls: None,
            fails_in_turn: false,
            is_cut: false,
            elsewhere: None,
            ends: None,
            cuts: Vec::new(alloc),
        })
    }

    /// How many bytes each call takes at most.
    pub(crate) fn pieces(&self) -> Pieces {
        match self.pieces {
            Some(pieces) => pieces,
            None => Pieces {
                source: 1 << 20,
                out: 1 << 20,
                err: 1 << 20,
            },
        }
    }

    /// Whether all is said that has to be, and what is said of cuts is of ones that are made.
    pub(crate) fn is_formed(&self) -> bool {
        self.words.is_some()
            && self.whole.status.is_some()
            && (self.calls.is_some() || !self.fails_in_turn)
            && (self.is_cut
                || (self.cuts.is_empty() && self.elsewhere.is_none() && self.ends.is_none()))
            && (self.elsewhere.is_none() || self.ends.is_none())
            && self.is_told_of_each()
            && self.cuts.iter().all(|cut| self.makes(cut))
    }

    /// Whether `ends`, if it is said, has a status for each cut.
    fn is_told_of_each(&self) -> bool {
        match &self.ends {
            Some(ends) => ends.len() == bytes_of(&self.input).len(),
            None => true,
        }
    }

    /// Whether it is said how these cuts end, and the input is long enough for them.
    fn makes(&self, cut: &Wanted) -> bool {
        let most = bytes_of(&self.input).len() as u64;
        cut.status.is_some()
            && !cut.lengths.is_empty()
            && cut.lengths.iter().all(|length| *length < most)
    }
}
